ghost use Rattle.std.specs.Prelude.{◌≡◌, ◌≤◌, [], IfOk, IfErr, IfSome, IfNone};
ghost use Rattle.ecp_helper.specs.Helpers.{new_helper, HoldsSound};
ghost use Rattle.std.specs.Borrow.{sem};
ghost use Rattle.ecp_helper.specs.Lending.{lends_node};
ghost use Rattle.ecp_helper.specs.Steps.{HasNone};
ghost use Rattle.ecp_helper.specs.Turns.{Turns, IsServed};

mod serving;
mod taking;

use crate::gate::Gate;
use crate::room::Room;
use crate::senders::Senders;
use crate::turn::Turn;
use ecp_book::{Book, Names};
use ecp_link::{Sender, Taker};
use ecp_node::Node;
use ecp_slice::SliceMsg;
use ecp_store::{NoMemory, Store};
use std::alloc::Global;
use std::marker::Model;
use taking::Forwarded;

/// The helper of one node: it adds the node's slices to the messages that come over a link, and sends them on.
///
/// Contracts see its node, what it knows of the links, and the messages that it holds, in their order. Each of them is
/// sound. It may go to another thread, and may be dropped, with the messages that it holds.
#[derive(Drop)]
pub struct Helper<N: Names, S: Store> {
    node: Node<N, S>,
    taker: Taker<SliceMsg<N>>,
    senders: Senders<N>,
    room: Room<N>,
    holds: usize,
}

impl<N: Names, S: Store> Model for Helper<N, S> {
    ghost use Rattle.ecp_helper.specs.Helpers.{HelperState};

    ghost Value = { HelperState };

    ghost use Rattle.ecp_helper.specs.HelperParts.{helper_seen, IsHelper};

    ghost view = { helper_seen };

    ghost invariant = { IsHelper N.shape N.told };
}

impl<N: Names, S: Store> Helper<N, S> {
    /// A helper that holds nothing, over this node and the taker of its link. Sender m of `to_nodes` is the one to node m,
    /// and sender p of `to_homes` the one to port p. It holds at most `holds` messages; a block has `block` bytes.
    ///
    /// This is the only call of a helper that takes memory. Want of memory is the only error: it gives the node back, and
    /// the links' ends are dropped.
    pub fn new(
        alloc: Global,
        node: Node<N, S>,
        taker: Taker<SliceMsg<N>>,
        to_nodes: Vec<Sender<SliceMsg<N>>>,
        to_homes: Vec<Sender<SliceMsg<N>>>,
        block: u32,
        holds: u32,
    ) -> Result<Helper<N, S>, (NoMemory, Node<N, S>)>
        requires block { block ≡ N.shape.block }
        requires holds { 1 ≤ holds }
        ensures helper { IfOk result (λ h. h ≡ new_helper node taker (record { to_nodes = to_nodes.items; to_homes = to_homes.items }) holds block) }
        ensures back { IfErr result (λ e. e.1 ≡ node) }
    {
        let holds = holds as usize;
        let room = match Room::new(alloc, holds, block) {
            Ok(room) => room,
            Err(no_memory) => return Err((no_memory, node)),
        };
        Ok(Helper {
            node,
            taker,
            senders: Senders::new(to_nodes, to_homes),
            room,
            holds,
        })
    }

    /// Moves one message one stop on, or says why it does not move. Takes no memory, and never waits.
    ///
    /// A message that was added here goes on before others are looked at. Else one is taken from the link, where there is
    /// room to hold it, or the oldest one that waits is tried again. A message that cannot go on stays held. One that is
    /// handed back is gone from here.
    ///
    /// After [`Turn::Fault`] the caller, who has the node, tells the coordinator that the block is gone, and removes it by the
    /// message's receipt of the stop that it is at.
    pub fn turn<G: Gate>(&mut self, book: &Book<N>, gate: &G) -> Turn<N>
        ensures turn { Turns (record { told = N.told; tells = S.tells; is_open = G.is_open gate.now; shuts = G.shuts gate.now }) self.old self.new result }
        ensures sound { HoldsSound N.shape N.told self.new }
    {
        let answer = self.move_one(book, gate);
        let _ = &self.holds;
        answer
    }

    /// As [`turn`](Helper::turn), which says besides that what is held is sound.
    fn move_one<G: Gate>(&mut self, book: &Book<N>, gate: &G) -> Turn<N>
        ensures { Turns (record { told = N.told; tells = S.tells; is_open = G.is_open gate.now; shuts = G.shuts gate.now }) self.old self.new result }
    {
        match self.forward() {
            Forwarded::Passed => Turn::Passed,
            Forwarded::Full(to) => match self.serve_next(book, gate) {
                Some(answer) => answer,
                None => Turn::Held(to),
            },
            Forwarded::Nothing => match self.serve_next(book, gate) {
                Some(answer) => answer,
                None => Turn::Idle,
            },
        }
    }

    /// Serves the message of the turn, if there is one.
    fn serve_next<G: Gate>(&mut self, book: &Book<N>, gate: &G) -> Option<Turn<N>>
        ensures some { IfSome result (λ answer. IsServed (record { told = N.told; tells = S.tells; is_open = G.is_open gate.now; shuts = G.shuts gate.now }) self.old self.new answer) }
        ensures none { IfNone result (HasNone self.old self.new) }
        ensures some_held { IfNone result (1 ≤ self.new.holds) }
    {
        match self.draw() {
            Some(message) => Some(self.serve(book, gate, message)),
            None => None,
        }
    }

    /// Its node, for what is not a turn: to keep, to remove and to wipe. What a caller leaves there is the helper's node.
    pub fn node(&mut self) -> &mut Node<N, S>
        ensures* lends { sem 𝓛 (lends_node N.row S.row N.Names S.Store self.entry result) }
        ensures node { result.now ≡ self.old.node }
    {
        &mut self.node
    }

    /// Gives its node back. The messages that it holds are dropped.
    pub fn into_node(self) -> Node<N, S>
        ensures { result ≡ self.node }
    {
        let Helper {
            node,
            taker: _,
            senders: _,
            room: _,
            holds: _,
        } = self;
        node
    }
}
