ghost use Rattle.std.specs.Prelude.{◌≡◌};

use ecp_shape::limits::MAX_ATTEMPTS;

/// What an entry of the history says was done, or was found.
#[derive(Clone, Copy, Debug, PartialEq, Eq)]
pub enum Act {
    /// The file is there: its first stripe, how many stripes it has, and the mask of the nodes that were up.
    Stored {
        first: u32,
        stripes: u32,
        up: u32,
    },
    /// The name has a file.
    NameTaken,
    /// Fewer nodes are up than a stripe has rows: how many are up.
    TooFewNodes(u32),
    /// The store of this node failed.
    StoreFailed(u8),
    /// The bytes of the block.
    Data,
    /// No file has the name.
    NoSuchFile,
    /// The file has no block of this index: how many it has.
    NoSuchBlock(u32),
    /// Fewer rows of the stripe are live than a row is made of: how many are live.
    Unrecoverable(u32),
    /// Each attempt was overtaken: the positions of the entries that did so.
    Unsteady([u32; MAX_ATTEMPTS as usize]),
    /// The file that a `cat` reads: its length, its block count and its first stripe.
    Opened {
        len: u32,
        count: u32,
        first: u32,
    },
    /// Each block of the file was read.
    Whole,
    /// The block of this index was the first that could not be read.
    Broken(u32),
    /// The node went down: how many live blocks were on it.
    Lost(u32),
    /// There is no such node.
    NoSuchNode,
    /// The node is down.
    NodeDown,
    /// The node came up, empty, in this incarnation.
    Joined(u32),
    /// The node is up.
    NodeUp,
    /// How many lost blocks stand on the node that a rebuild repairs.
    Listed(u32),
    /// There is no node of this number.
    NoNode(u32),
    /// The node that the blocks were to go to is down.
    TargetDown(u32),
    /// The block is live again, on this node in this incarnation.
    Restored {
        stripe: u32,
        row: u8,
        node: u8,
        inc: u32,
    },
    /// The block is live.
    AlreadyLive {
        stripe: u32,
        row: u8,
    },
    /// Another row of the stripe is live on the target.
    Clash {
        stripe: u32,
        row: u8,
        other: u8,
    },
    /// Too few rows of the stripe are live: how many are.
    Gone {
        stripe: u32,
        row: u8,
        live: u32,
    },
    /// The store of the target failed.
    MendFailed {
        stripe: u32,
        row: u8,
        node: u8,
    },
    /// Each attempt was overtaken, by the entries at these positions.
    MendUnsteady {
        stripe: u32,
        row: u8,
        at: [u32; MAX_ATTEMPTS as usize],
    },
    /// The target is down.
    MendDown {
        stripe: u32,
        row: u8,
        node: u8,
    },
    /// How the parts of a rebuild ended.
    Rebuilt {
        restored: u32,
        live: u32,
        clash: u32,
        gone: u32,
        failed: u32,
        unsteady: u32,
        down: u32,
    },
    /// The length of a file, its block count, and how many blocks of its stripes are live.
    Stat {
        len: u32,
        count: u32,
        live: u32,
    },
    /// The block was given up, since a read of it failed.
    Drop {
        stripe: u32,
        row: u8,
    },
}

impl Act {
    ghost use Rattle.ecp_entry.specs.Entries.{act_word};

    /// The word for the act, as the journal says it.
    pub fn word(&self) -> &'static [u8]
        ensures { result.now ≡ act_word self.now }
    {
        match self {
            Act::Stored { .. } => b"stored",
            Act::NameTaken => b"name-taken",
            Act::TooFewNodes(_) => b"few-nodes",
            Act::StoreFailed(_) => b"store-failed",
            Act::Data => b"data",
            Act::NoSuchFile => b"no-file",
            Act::NoSuchBlock(_) => b"no-block",
            Act::Unrecoverable(_) => b"unrecoverable",
            Act::Unsteady(_) => b"unsteady",
            Act::Opened { .. } => b"opened",
            Act::Whole => b"whole",
            Act::Broken(_) => b"broken",
            Act::Lost(_) => b"lost",
            Act::NoSuchNode | Act::NoNode(_) => b"no-node",
            Act::NodeDown | Act::TargetDown(_) => b"node-down",
            Act::Joined(_) => b"joined",
            Act::NodeUp => b"node-up",
            Act::Listed(_) => b"listed",
            Act::Restored { .. } => b"restored",
            Act::AlreadyLive { .. } => b"already-live",
            Act::Clash { .. } => b"clash",
            Act::Gone { .. } => b"gone",
            Act::MendFailed { .. } => b"mend-failed",
            Act::MendUnsteady { .. } => b"mend-unsteady",
            Act::MendDown { .. } => b"mend-down",
            Act::Rebuilt { .. } => b"rebuilt",
            Act::Stat { .. } => b"stat",
            Act::Drop { .. } => b"drop",
        }
    }
}
