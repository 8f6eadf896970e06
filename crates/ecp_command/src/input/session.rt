use crate::input::planned::Planned;

/// The calls of one session, which it makes one after another.
#[derive(Debug, Drop)]
pub struct Session {
    /// The session's number, counted from 0 and below [`MAX_SESSIONS`](ecp_shape::limits::MAX_SESSIONS).
    pub number: u32,
    /// Its calls in their order: a call's place here is its number.
    pub calls: Vec<Planned>,
}
