ghost use Rattle.std.specs.Prelude.{◌≡◌};
ghost use Rattle.ecp_coord.specs.Listing.{act_hindering};

use ecp_entry::Act;

/// Why a rebuild gets no tasks.
#[derive(Clone, Copy, Debug, PartialEq, Eq)]
pub enum NoList {
    /// There is no node of this number.
    NoSuchNode(u32),
    /// The node that blocks are to be restored onto, which has this number, is down.
    TargetDown(u32),
    /// Want of memory.
    NoMemory,
}

impl NoList {
    /// The act that says so in the history, where there is one.
    pub(crate) fn act(self) -> Option<Act>
        ensures { result ≡ act_hindering self }
    {
        match self {
            NoList::NoSuchNode(node) => Some(Act::NoNode(node)),
            NoList::TargetDown(node) => Some(Act::TargetDown(node)),
            NoList::NoMemory => None,
        }
    }
}
