ghost use Rattle.std.specs.Prelude.{◌≡◌};
ghost use Rattle.ecp_coord.specs.Losing.{act_of};

use ecp_entry::Act;

/// What became of a node, or why nothing did.
#[derive(Clone, Copy, Debug, PartialEq, Eq)]
pub enum NodeAct {
    /// The node went down: how many live blocks were on it.
    Lost(u32),
    /// The node came up, empty, in this incarnation.
    Joined(u32),
    /// There is no such node.
    NoSuchNode,
    /// The node was down already.
    NodeDown,
    /// The node was up already.
    NodeUp,
}

impl NodeAct {
    /// The act that says so in the history.
    pub fn act(self) -> Act
        ensures { result ≡ act_of self }
    {
        match self {
            NodeAct::Lost(count) => Act::Lost(count),
            NodeAct::Joined(inc) => Act::Joined(inc),
            NodeAct::NoSuchNode => Act::NoSuchNode,
            NodeAct::NodeDown => Act::NodeDown,
            NodeAct::NodeUp => Act::NodeUp,
        }
    }
}
