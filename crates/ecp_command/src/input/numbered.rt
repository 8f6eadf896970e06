use crate::input::form::Form;

/// What a line of a script says, and the number of the line.
#[derive(Debug, Drop)]
pub(crate) struct Numbered {
    pub line: u32,
    pub form: Form,
}
