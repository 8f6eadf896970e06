//! The limits on a node's log.

/// How many losses of one node the history has at most. A node is wiped at most so often.
pub const MAX_LOSSES: u32 = 33_554_432;

/// How many places of its log are kept, at its end, for what is always entered: 2^32 - 2^26 - 4 are left for the rest.
pub const LOG_END: u64 = 4_227_858_428;
