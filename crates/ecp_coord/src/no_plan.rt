ghost use Rattle.std.specs.Prelude.{◌≡◌};
ghost use Rattle.ecp_coord.specs.Plans.{refusal_of};

use ecp_entry::Act;

/// Why there is no plan for a block.
#[derive(Clone, Copy, Debug, PartialEq, Eq)]
pub enum NoPlan {
    /// No file has the name.
    NoSuchFile,
    /// The file has only so many blocks.
    NoSuchBlock(u32),
    /// The block is lost, and so few rows of its stripe are live that they do not make it.
    Unrecoverable(u32),
    /// The block that is to be restored is live.
    AlreadyLive,
    /// This other row of the stripe is live on the node that the block is to be restored onto.
    Clash(u8),
    /// The node that the block is to be restored onto is down.
    TargetDown(u8),
    /// Want of memory.
    NoMemory,
}

impl NoPlan {
    /// The act that says so in the history, where it ends a call.
    pub(crate) fn act(self) -> Option<Act>
        ensures { result ≡ refusal_of self }
    {
        match self {
            NoPlan::NoSuchFile => Some(Act::NoSuchFile),
            NoPlan::NoSuchBlock(count) => Some(Act::NoSuchBlock(count)),
            NoPlan::Unrecoverable(live) => Some(Act::Unrecoverable(live)),
            NoPlan::AlreadyLive | NoPlan::Clash(_) | NoPlan::TargetDown(_) | NoPlan::NoMemory => {
                None
            }
        }
    }
}
