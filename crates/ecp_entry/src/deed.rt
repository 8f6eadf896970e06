use crate::name::Name;

/// What a call asks for.
#[derive(Clone, Copy, Debug, PartialEq, Eq)]
pub enum Deed {
    /// Store a file of this many bytes.
    Put { name: Name, len: u32 },
    /// The bytes of a file block.
    Read { name: Name, index: u32 },
    /// The digest of a file block.
    Sum { name: Name, index: u32 },
    /// The whole file, by its length and digest.
    Cat { name: Name },
    /// The node goes down, and loses all.
    Lose { node: u32 },
    /// The node comes up, empty.
    Join { node: u32 },
    /// The blocks that are lost on one node are restored onto another, or the same.
    Rebuild { from: u32, to: u32 },
    /// The sizes of a file, and its live blocks.
    Stat { name: Name },
}
