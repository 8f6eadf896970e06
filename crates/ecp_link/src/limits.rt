//! The limits of a link.

/// The most senders of a link.
pub const MOST_SENDERS: u32 = 128;

/// The most that the capacity of a link may be.
pub const MOST_CAPACITY: u32 = 16;

/// A sender that has pushed so many items pushes no more.
pub const MOST_PUSHES: u64 = 1 << 62;
