//! The reasons for which messages are given up. A cancel word is 0 where there is none.

/// A helper was lost.
pub const HELPER_LOST: u64 = 1;

/// A store failed.
pub const STORE_FAILED: u64 = 2;

/// Another attempt took this one's place.
pub const ATTEMPT_REPLACED: u64 = 3;

/// The call ended that wanted the block.
pub const CALL_ENDED: u64 = 4;
