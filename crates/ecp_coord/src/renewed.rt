ghost use Rattle.std.specs.Prelude.{◌≡◌};
ghost use Rattle.ecp_coord.specs.Puts.{end_of};

use ecp_entry::Act;
use ecp_plan::Voids;

/// What became of a reservation that was asked for anew.
#[derive(Clone, Copy, Debug, PartialEq, Eq)]
pub enum Renewed {
    /// It is that of the next attempt: its stripe numbers and its places are new.
    Again,
    /// It still stands: none of its nodes was lost since its point.
    StillGood,
    /// A file has the name.
    NameTaken,
    /// So many nodes are up, fewer than a stripe has rows.
    TooFewNodes(u32),
    /// As many attempts came to nothing as there may be.
    Unsteady,
}

impl Renewed {
    /// The act that says so in the history, where that ends the call.
    pub(crate) fn act(self, voids: &Voids) -> Option<Act>
        ensures { result ≡ end_of voids.now self }
    {
        match self {
            Renewed::NameTaken => Some(Act::NameTaken),
            Renewed::TooFewNodes(up) => Some(Act::TooFewNodes(up)),
            Renewed::Unsteady => Some(Act::Unsteady(voids.at)),
            Renewed::Again | Renewed::StillGood => None,
        }
    }
}
