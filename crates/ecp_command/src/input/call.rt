use ecp_history::Text;
use ecp_store::Block;

/// What one line of a script asks for.
#[derive(Debug, Drop)]
pub enum Call {
    /// Store these bytes as the file of this name.
    Put { name: Text, bytes: Block },
    /// The bytes of one block of a file, counted from 0.
    Read { name: Text, index: u32 },
    /// The digest of one block of a file.
    Sum { name: Text, index: u32 },
    /// The digest of a whole file.
    Cat { name: Text },
    /// The node goes down and loses all.
    Lose { node: u32 },
    /// The node comes up empty.
    Join { node: u32 },
    /// Restore what is lost on one node, onto the other.
    Rebuild { from: u32, to: u32 },
    /// The sizes and the live blocks of a file.
    Stat { name: Text },
}
