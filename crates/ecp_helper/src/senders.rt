ghost use Rattle.std.specs.Prelude.{◌≡◌, ◌↔◌, IsTrue};
ghost use Rattle.ecp_link.specs.Links.{OnPushed, IfFull};
ghost use Rattle.ecp_helper.specs.Senders.{HasSender, Sends, IsShut};

use ecp_book::Names;
use ecp_link::{Pushed, Sender};
use ecp_slice::{Next, SliceMsg};
use std::marker::Model;

/// The senders of a helper: number m of the first is the one to node m, and number p of the second the one to port p.
#[derive(Drop)]
pub(crate) struct Senders<N: Names> {
    to_nodes: Vec<Sender<SliceMsg<N>>>,
    to_homes: Vec<Sender<SliceMsg<N>>>,
}

impl<N: Names> Model for Senders<N> {
    ghost use Rattle.ecp_helper.specs.Senders as senders;

    ghost Value = { senders.Senders };

    ghost view = { λ s. record { to_nodes = s.to_nodes.items; to_homes = s.to_homes.items } };
}

impl<N: Names> Senders<N> {
    pub(crate) fn new(
        to_nodes: Vec<Sender<SliceMsg<N>>>,
        to_homes: Vec<Sender<SliceMsg<N>>>,
    ) -> Senders<N>
        ensures { result ≡ record { to_nodes = to_nodes.items; to_homes = to_homes.items } }
    {
        Senders { to_nodes, to_homes }
    }

    /// Whether there is one to the stop.
    pub(crate) fn has(&self, to: Next) -> bool
        ensures { IsTrue result ↔ HasSender self.now to }
    {
        match to {
            Next::Node(node) => usize::from(node) < self.to_nodes.len(),
            Next::Home(port) => usize::from(port) < self.to_homes.len(),
        }
    }

    /// Pushes the message onto the link to the stop.
    pub(crate) fn push(&mut self, to: Next, message: SliceMsg<N>) -> Pushed<SliceMsg<N>>
        requires { HasSender self.old to }
        ensures ok { OnPushed result (Sends self.old self.new to message) }
        ensures full { IfFull result (λ m. (m ≡ message) × IsShut self.old self.new to) }
    {
        match to {
            Next::Node(node) => {
                let sender = &mut self.to_nodes[usize::from(node)];
                sender.push(message)
            }
            Next::Home(port) => {
                let sender = &mut self.to_homes[usize::from(port)];
                sender.push(message)
            }
        }
    }
}
