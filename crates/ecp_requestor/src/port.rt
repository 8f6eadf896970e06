ghost use Rattle.std.specs.Prelude.{◌≡◌, ◌<◌, length};

use ecp_book::Names;
use ecp_link::{Pushed, Sender, Taker};
use ecp_slice::{Next, SliceMsg};
use std::marker::Model;

/// The port of a requestor: by which its messages leave for the nodes, and where they come home. Contracts see its ends of
/// the links, and its slot, which its messages carry as their home.
///
/// It serves one fetch at a time. What comes home late, of a fetch that ended, is refused by the next one.
#[derive(Drop)]
pub struct Port<N: Names> {
    to_nodes: Vec<Sender<SliceMsg<N>>>,
    taker: Taker<SliceMsg<N>>,
    slot: u8,
}

impl<N: Names> Model for Port<N> {
    ghost use Rattle.std.specs.Prelude.{◌≡◌, length};
    ghost use Rattle.ecp_requestor.specs.Ports.{PortState};

    ghost Value = { PortState };

    ghost view = { λ p. record { to_nodes = p.to_nodes.items; taker = p.taker; slot = p.slot } };

    ghost invariant = { λ p. length p.to_nodes.items ≡ N.shape.nodes };
}

impl<N: Names> Port<N> {
    /// The port `slot`, with a sender to each node and the taker of the link on which its messages come home. Sender m is
    /// the one to node m.
    pub fn new(to_nodes: Vec<Sender<SliceMsg<N>>>, taker: Taker<SliceMsg<N>>, slot: u8) -> Port<N>
        requires { length to_nodes.items ≡ N.shape.nodes }
        ensures { result ≡ record { to_nodes = to_nodes.items; taker = taker; slot = slot } }
    {
        Port {
            to_nodes,
            taker,
            slot,
        }
    }

    /// The number by which messages find it.
    pub(crate) fn slot(&self) -> u8 {
        self.slot
    }

    /// Pushes the message onto the link to the node that it goes to next. It comes back where there is no room.
    pub(crate) fn send(&mut self, message: SliceMsg<N>) -> Pushed<SliceMsg<N>> {
        match message.next() {
            Next::Node(node) => {
                let sender = &mut self.to_nodes[usize::from(node)];
                sender.push(message)
            }
            Next::Home(_) => Pushed::Ok,
        }
    }

    /// A message that came home.
    pub(crate) fn pop(&mut self) -> Option<SliceMsg<N>> {
        self.taker.pop()
    }

    /// The node whose turn comes after this one: they go round.
    pub(crate) fn node_after(&self, node: u8) -> u8
        requires { node < N.shape.nodes }
        ensures { result < N.shape.nodes }
    {
        match node.checked_add(1) {
            Some(next) if usize::from(next) < self.to_nodes.len() => next,
            Some(_) | None => 0,
        }
    }
}
