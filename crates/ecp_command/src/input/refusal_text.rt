use crate::input::subject::Subject;

/// The text of a refusal: its words, and what stands behind them.
#[derive(Clone, Copy, Debug, PartialEq, Eq)]
pub struct RefusalText {
    pub words: &'static str,
    pub subject: Subject,
}

impl RefusalText {
    /// How many bytes the words have at most.
    pub const WORDS_ROOM: usize = 17;
}
