/// The bytes of a slice where the head states none, and the block has no fewer.
pub(crate) const DEFAULT_SLICE: u32 = 4_096;

/// The slices in flight on one link where the head states none.
pub(crate) const DEFAULT_WINDOW: u32 = 4;

/// The threads that turn the helpers where the head states none.
pub(crate) const DEFAULT_WORKERS: u32 = 0;
