use crate::input::session::Session;

/// The calls of a script by session, and the phases that they are in.
#[derive(Debug, Drop)]
pub(crate) struct Schedule {
    /// The sessions that have a call, in rising order of their numbers.
    pub sessions: Vec<Session>,
    /// How many phases the lines of the script are in, at least 1.
    pub phases: u32,
}
