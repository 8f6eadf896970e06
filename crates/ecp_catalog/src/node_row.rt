ghost use Rattle.std.specs.Prelude.{◌≡◌, ◌+◌, ◌^◌, ◌<◌, ◌≤◌, All, OnOk, OnErr, find, nat_le, slice_get};
ghost use Rattle.ecp_catalog.specs.Catalogs.{counted, joined_node, lost_at, new_node, with_spare};
ghost use Rattle.ecp_catalog.specs.Standing.{is_up_in};

use ecp_history::Node;
use ecp_store::NoMemory;
use std::alloc::Global;
use std::marker::Model;

/// What a catalog has of a node: whether it is up and in which incarnation, how many live blocks stand on it, and where
/// the history has its losses.
#[derive(Drop)]
pub(crate) struct NodeRow {
    node: Node,
    live: u32,
    losses: Vec<u32>,
    spare: usize,
}

impl Model for NodeRow {
    ghost use Rattle.std.specs.Prelude.{vec_len, vec_capacity};
    ghost use Rattle.ecp_catalog.specs.Catalogs.{NodeSeen};
    ghost use Rattle.ecp_catalog.specs.Losses.{AreLosses};

    ghost Value = { NodeSeen };

    ghost view = { λ x. record { node = x.node; live = x.live; losses = x.losses.items; spare = x.spare } };

    ghost invariant = { λ x. AreLosses x.losses.items (vec_len x.losses) x.spare (vec_capacity x.losses) };
}

impl NodeRow {
    /// A node that is up, with no block and no loss.
    pub(crate) fn new(alloc: Global) -> NodeRow
        ensures { result ≡ new_node }
    {
        NodeRow {
            node: Node { up: true, inc: 0 },
            live: 0,
            losses: Vec::new(alloc),
            spare: 0,
        }
    }

    /// Whether it is up, and its incarnation.
    pub(crate) fn node(&self) -> Node
        ensures { result ≡ self.now.node }
    {
        self.node
    }

    /// Whether it is up in this incarnation.
    pub(crate) fn is_up_in(&self, inc: u32) -> bool
        ensures { result ≡ is_up_in inc self.now.node }
    {
        self.node.up && self.node.inc == inc
    }

    /// How many live blocks stand on it.
    pub(crate) fn live(&self) -> u32
        ensures { result ≡ self.now.live }
    {
        self.live
    }

    /// The first of its losses that is not before a position of the history.
    pub(crate) fn first_loss_from(&self, point: u32) -> Option<u32>
        ensures { result ≡ find (nat_le point) self.now.losses }
    {
        let at = self.losses.partition_point(|position| *position < point);
        position_at(&self.losses, at)
    }

    /// One live block more stands on it.
    pub(crate) fn count(&mut self)
        requires { self.old.live + 1 < 2 ^ 32 }
        ensures { self.new ≡ counted self.old }
    {
        self.live += 1;
    }

    /// It is down, and none of its blocks is live. There is room for the position of the loss, which is behind the others.
    pub(crate) fn lose(&mut self, position: u32)
        requires room { 1 ≤ self.old.spare }
        requires behind { All (λ p. p < position) self.old.losses }
        ensures { self.new ≡ lost_at position self.old }
    {
        self.losses.push_reserved(position);
        self.spare -= 1;
        self.node.up = false;
        self.live = 0;
    }

    /// It is up, in its next incarnation.
    pub(crate) fn join(&mut self)
        requires { self.old.node.inc + 1 < 2 ^ 32 }
        ensures { self.new ≡ joined_node self.old }
    {
        self.node.up = true;
        self.node.inc += 1;
    }

    /// Takes room for so many losses. A refusal changes nothing.
    pub(crate) fn reserve(&mut self, hands: usize) -> Result<(), NoMemory>
        ensures ok { OnOk result (self.new ≡ with_spare hands self.old) }
        ensures err { OnErr result (self.new ≡ self.old) }
    {
        self.losses.reserve(hands)?;
        self.spare = self.spare.max(hands);
        Ok(())
    }
}

/// The position at an index, if there is one.
fn position_at(positions: &[u32], at: usize) -> Option<u32>
    ensures { result ≡ slice_get positions.now at }
{
    positions.get(at).copied()
}
