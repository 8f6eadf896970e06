ghost use Rattle.std.specs.Prelude.{◌≡◌};
ghost use Rattle.ecp_coord.specs.Plans.{end_of};

use ecp_entry::Act;
use ecp_plan::Voids;

/// What became of a plan that was asked for anew.
#[derive(Clone, Copy, Debug, PartialEq, Eq)]
pub enum Replanned {
    /// It is the plan of the next attempt.
    Planned,
    /// It still stands: nothing came between that concerns it.
    StillGood,
    /// The block is lost, and so few rows of its stripe are live that they do not make it.
    Unrecoverable(u32),
    /// The node that the block is to be restored onto is down.
    TargetDown(u8),
    /// As many attempts came to nothing as there may be.
    Unsteady,
}

impl Replanned {
    /// The act that says so in the history, where it ends a call. `voids` are the positions at which the attempts came to
    /// nothing.
    pub(crate) fn act(self, voids: &Voids) -> Option<Act>
        ensures { result ≡ end_of voids.now self }
    {
        match self {
            Replanned::Unrecoverable(live) => Some(Act::Unrecoverable(live)),
            Replanned::Unsteady => Some(Act::Unsteady(voids.at)),
            Replanned::Planned | Replanned::StillGood | Replanned::TargetDown(_) => None,
        }
    }
}
