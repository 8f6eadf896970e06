//! The limits of a catalog.

/// Every stripe of a stored file has a number below this one, so that 32 bits count the live blocks of a node.
pub const END_OF_STRIPES: u32 = 268_435_455;
