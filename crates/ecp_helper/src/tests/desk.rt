//! A helper with the far ends of its links.
ghost use Rattle.std.specs.Prelude.{◌≡◌};
ghost use Rattle.ecp_slice.specs.OneFile.{three_rows};

use crate::{Gate, Helper, Turn};
use ecp_book::{Book, Names};
use ecp_link::{Pushed, Sender, Taker, link};
use ecp_node::Node;
use ecp_slice::{Next, SliceMsg};
use ecp_store::Store;
use std::alloc::Global;
use std::test::Fail;

/// A helper, the sender of its link, and the takers of its links to node 2 and to port 0, which hold one message each.
#[derive(Drop)]
pub(super) struct Desk<N: Names, S: Store> {
    pub(super) helper: Helper<N, S>,
    pub(super) inbox: Sender<SliceMsg<N>>,
    pub(super) to_two: Taker<SliceMsg<N>>,
    pub(super) home: Taker<SliceMsg<N>>,
}

/// What a turn did with a message that stays with the helpers.
#[derive(Clone, Copy, Debug, PartialEq, Eq)]
pub(super) enum Moved {
    On,
    Held(Next),
    Waited,
    Nothing,
    HandedBack,
}

impl<N: Names, S: Store + Drop> Desk<N, S> {
    pub(super) fn new(alloc: Global, node: Node<N, S>) -> Result<Desk<N, S>, Fail>
        requires { N.shape ≡ three_rows 1 }
    {
        let (mut inbox, taker) = link(alloc, 1, 4)?;
        let inbox = inbox.pop().ok_or("inbox")?;
        let (to_nodes, to_two) = to_nodes(alloc)?;
        let (to_homes, home) = stop(alloc)?;
        let Ok(helper) = Helper::new(alloc, node, taker, to_nodes, to_homes, 1, 2) else {
            return Err("helper".into());
        };
        Ok(Desk {
            helper,
            inbox,
            to_two,
            home,
        })
    }

    /// Puts a message on its link, and says whether there was room.
    pub(super) fn put(&mut self, message: SliceMsg<N>) -> bool {
        matches!(self.inbox.push(message), Pushed::Ok)
    }

    /// Gives the helper's node back.
    pub(super) fn into_node(self) -> Node<N, S> {
        let Desk { helper, .. } = self;
        helper.into_node()
    }

    /// What a turn does with its message.
    pub(super) fn moved<G: Gate>(&mut self, book: &Book<N>, gate: &G) -> Moved {
        match self.helper.turn(book, gate) {
            Turn::Passed => Moved::On,
            Turn::Held(to) => Moved::Held(to),
            Turn::Waited => Moved::Waited,
            Turn::Idle => Moved::Nothing,
            Turn::Dropped(_) | Turn::Astray(_) | Turn::Lost(_, _) | Turn::Fault(_) => {
                Moved::HandedBack
            }
        }
    }
}

// A sender to each of the three nodes, and the taker of the one to node 2.
fn to_nodes<N: Names>(
    alloc: Global,
) -> Result<(Vec<Sender<SliceMsg<N>>>, Taker<SliceMsg<N>>), Fail> {
    let (mut to_nodes, _) = stop(alloc)?;
    let (mut to_one, _) = stop(alloc)?;
    to_nodes.push(to_one.pop().ok_or("node 1")?)?;
    let (mut last, to_two) = stop(alloc)?;
    to_nodes.push(last.pop().ok_or("node 2")?)?;
    Ok((to_nodes, to_two))
}

// A link of one sender, with room for one message.
fn stop<N: Names>(alloc: Global) -> Result<(Vec<Sender<SliceMsg<N>>>, Taker<SliceMsg<N>>), Fail> {
    Ok(link(alloc, 1, 1)?)
}
