//! What becomes of the message of a turn.

ghost use Rattle.std.specs.Prelude.{◌≡◌, ◌↔◌, IsTrue};
ghost use Rattle.ecp_slice.specs.Messages.{HasNext, next_of};
ghost use Rattle.ecp_slice.specs.Sound.{IsSound};
ghost use Rattle.ecp_helper.specs.Senders.{HasSender};
ghost use Rattle.ecp_helper.specs.Helpers.{HasRoom};
ghost use Rattle.ecp_helper.specs.Steps.{IsHere, stop_after};
ghost use Rattle.ecp_helper.specs.Turns.{Serves, Works, SendsOut};

use super::Helper;
use crate::adding::add_next;
use crate::gate::Gate;
use crate::turn::Turn;
use ecp_book::{Book, Names};
use ecp_link::Pushed;
use ecp_node::NodeRead;
use ecp_plan::hop_at;
use ecp_slice::{HELPER_LOST, Next, STORE_FAILED, SliceMsg};
use ecp_store::Store;

/// Where the message goes after the stop that comes next.
fn stop_after<N: Names>(message: &SliceMsg<N>) -> Next
    requires more { HasNext message.now }
    requires sound { IsSound N.shape N.told message.now }
    ensures { result ≡ stop_after message.now }
{
    let helpers = message.rows().len() as u8;
    let at = message.at() + 1;
    if at == helpers {
        return Next::Home(message.home());
    }
    let hop = hop_at(message.lanes(), helpers, message.slice(), at);
    Next::Node(message.nodes()[usize::from(hop)])
}

impl<N: Names, S: Store> Helper<N, S> {
    /// Serves the message of a turn, for which there is room.
    pub(super) fn serve<G: Gate>(
        &mut self,
        book: &Book<N>,
        gate: &G,
        mut message: SliceMsg<N>,
    ) -> Turn<N>
        requires { HasRoom self.old }
        ensures { Serves (record { told = N.told; tells = S.tells; is_open = G.is_open gate.now; shuts = G.shuts gate.now }) self.old self.new message result }
    {
        if message.read_cancel() != 0 {
            return Turn::Dropped(message);
        }
        if !self.is_here(&message) {
            return Turn::Astray(message);
        }
        let node = self.node.number();
        if !gate.go(node, message.repair(), message.attempt(), message.slice()) {
            let Ok(()) = self.room.waiting.push_back(message) else {
                unreachable!()
            };
            return Turn::Waited;
        }
        self.work(book, message)
    }

    /// Whether the message comes to this node next, and there is a sender to the stop after it.
    fn is_here(&self, message: &SliceMsg<N>) -> bool
        ensures here { IsTrue result ↔ IsHere self.now message.now }
        ensures sound { IsSound N.shape N.told message.now }
    {
        match message.next() {
            Next::Node(node) => node == self.node.number() && self.senders.has(stop_after(message)),
            Next::Home(_) => false,
        }
    }

    /// Adds this node's slice to the message, and sends it on.
    fn work(&mut self, book: &Book<N>, mut message: SliceMsg<N>) -> Turn<N>
        requires here { IsHere self.old message }
        requires room { HasRoom self.old }
        requires sound { IsSound N.shape N.told message }
        ensures { Works N.told S.tells self.old self.new message result }
    {
        let buffer = self.room.buffer.as_mut_slice();
        match add_next(book, &mut self.node, &mut message, buffer) {
            Ok(()) => self.send(message),
            Err(NodeRead::Lost(now)) => {
                message.set_cancel(HELPER_LOST);
                Turn::Lost(message, now)
            }
            Err(NodeRead::Failed) => {
                message.set_cancel(STORE_FAILED);
                Turn::Fault(message)
            }
        }
    }

    /// Sends a message on that was added here, or holds it as the newest of those.
    fn send(&mut self, message: SliceMsg<N>) -> Turn<N>
        requires sender { HasSender self.old.senders (next_of message) }
        requires room { HasRoom self.old }
        ensures { SendsOut self.old self.new message result }
    {
        let to = message.next();
        match self.senders.push(to, message) {
            Pushed::Ok => Turn::Passed,
            Pushed::Full(back) => {
                let Ok(()) = self.room.added.push_back(back) else {
                    unreachable!()
                };
                Turn::Held(to)
            }
        }
    }
}
