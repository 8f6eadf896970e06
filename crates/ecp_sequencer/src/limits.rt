//! The room of a hand.

/// How many entries and notes a hand makes without memory after a call began, or after a note that takes room.
pub const ROOM: u32 = 40;
