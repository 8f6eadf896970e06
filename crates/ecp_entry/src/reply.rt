use crate::act::Act;

/// What a call answered, as its reply line says it.
#[derive(Clone, Copy, Debug, PartialEq, Eq)]
pub enum Reply {
    /// The act that ended the call, in its own words.
    Ended(Act),
    /// The bytes of a block.
    Data,
    /// The digest of a block.
    Sum,
    /// A whole file of this many bytes, and its digest.
    File { len: u32 },
    /// The block of this index was the first that could not be read, and how that part ended.
    Broken { index: u32, cause: Act },
}
