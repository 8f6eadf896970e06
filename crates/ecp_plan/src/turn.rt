ghost use Rattle.std.specs.Prelude.{◌≡◌, ◌<◌, length, nat_lt};
ghost use Rattle.ecp_plan.specs.Turns.{number, turn_of};

use crate::live_row::LiveRow;

/// When it is a node's turn to help: nodes with smaller stamps come first, and of those with one stamp the smaller node.
#[derive(Clone, Copy)]
pub(crate) struct Turn {
    stamp: u64,
    node: u8,
}

impl Turn {
    /// The turn of the node that a row is live on.
    pub(crate) fn of(stamps: &[u64], live: &LiveRow) -> Turn
        requires { live.now.node < length stamps.now }
        ensures turn { number result ≡ turn_of stamps.now live.now }
        ensures byte { live.now.node < 256 }
    {
        Turn {
            stamp: stamps[usize::from(live.node)],
            node: live.node,
        }
    }

    /// Whether it comes before the other turn.
    pub(crate) fn is_before(self, other: Turn) -> bool
        ensures { result ≡ nat_lt (number self) (number other) }
    {
        self.stamp < other.stamp || (self.stamp == other.stamp && self.node < other.node)
    }
}
