//! The end of a service.
ghost use Rattle.std.specs.Prelude.{◌≡◌, ◌<◌, vec_len};
ghost use Rattle.ecp_node.specs.Nodes.{start_of};
ghost use Rattle.ecp_cluster.specs.Ended.{AllPaid, Ended, HasPaid};

use crate::Pass;
use crate::closed::Closed;
use crate::room::Room;
use crate::service::Service;
use ecp_book::{Book, Names};
use ecp_coord::Coord;
use ecp_helper::{Gate, Helper};
use ecp_node::Node;
use ecp_store::Store;
use std::sync::{Mutex, Wait};

impl<N: Names, S: Store + Drop, G: Gate + Drop> Service<N, S, G> {
    /// Meets each node and each pass for the last time, and gives the journal and the stores, those by the numbers of their
    /// nodes. Messages that the helpers hold are dropped. Takes no memory, and adds nothing to the history.
    pub fn close<R: Wait>(self, rt: &R, passes: Vec<Pass<N>>) -> Closed<S>
        ensures { Ended N.shape N.told N.callers N.spare_hands S.faults N.stores result.journal.lines passes.items result.stores.items }
    {
        let Service {
            book,
            coord,
            helpers,
            ports: _,
            gate: _,
            shape: _,
            window: _,
            room,
            alloc: _,
        } = self;
        let mut coord = coord.into_inner();
        let stores = settle_all(rt, &book, &mut coord, helpers, room.into_inner());
        Closed {
            journal: coord.close(&book, passes),
            stores,
        }
    }
}

// Settles each node, and gives their stores.
fn settle_all<N: Names, S: Store + Drop, R: Wait>(
    rt: &R,
    book: &Book<N>,
    coord: &mut Coord<N>,
    mut helpers: Vec<Mutex<Helper<N, S>>>,
    room: Room<N, S>,
) -> Vec<S>
    requires { vec_len helpers ≡ N.shape.nodes }
    ensures paid { AllPaid S.faults N.stores coord.old.sequence.history N.shape.nodes result.items }
    ensures same { coord.new ≡ coord.old }
{
    let Room { mut stores, .. } = room;
    helpers.reverse();
    for number in 0..helpers.len() {
        let Some(helper) = helpers.pop() else {
            unreachable!()
        };
        let node = placed(rt, helper.into_inner().into_node(), number);
        stores.push_reserved(settle(book, coord, node));
    }
    stores
}

// The node, which has this number. What lay behind a lock is known by its type alone, so the number is looked at: with another
// one, which no place has, the call would not return.
fn placed<N: Names, S: Store, R: Wait>(rt: &R, node: Node<N, S>, number: usize) -> Node<N, S>
    ensures node { result ≡ node }
    ensures number { result.number ≡ number }
{
    if usize::from(node.number()) == number {
        return node;
    }
    for _ in rt.forever() {}
    unreachable!()
}

// Settles a node, and gives its store.
fn settle<N: Names, S: Store>(book: &Book<N>, coord: &mut Coord<N>, mut node: Node<N, S>) -> S
    requires { node.number < N.shape.nodes }
    ensures paid { HasPaid coord.old.sequence.history (start_of N.stores node.number) node.number (S.faults result) }
    ensures same { coord.new ≡ coord.old }
{
    coord.settle(book, &mut node);
    node.into_store()
}
