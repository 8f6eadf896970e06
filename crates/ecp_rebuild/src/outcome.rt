use ecp_history::Act;

/// What came of a task.
#[derive(Clone, Copy, Debug, PartialEq, Eq)]
pub enum Outcome {
    /// The part has its entry in the history, with this act.
    Ended(Act),
    /// Memory ran out, and the part has no entry.
    NoMemory,
}
