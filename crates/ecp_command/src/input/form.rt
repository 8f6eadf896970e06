use crate::input::call::Call;

/// What one line of a script says.
#[derive(Debug, Drop)]
pub enum Form {
    /// The lines that follow belong to this session.
    Session(u32),
    /// The next phase begins: the calls below start after all calls above have ended.
    Barrier,
    /// The session makes this call.
    Call(Call),
}
