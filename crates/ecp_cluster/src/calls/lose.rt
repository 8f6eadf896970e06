//! The call by which a node goes down.
ghost use Rattle.std.specs.Prelude.{◌≡◌, [], IfOk, OnErr};
ghost use Rattle.ecp_entry.specs.declared.deed.Deed.TheVariants.{Lose};
ghost use Rattle.ecp_sequencer.specs.Passes.{IsWhole};
ghost use Rattle.ecp_coord.specs.Calls.{IsOpen};
ghost use Rattle.ecp_coord.specs.Losing.{act_of};
ghost use Rattle.ecp_cluster.specs.Answered.{Answered, Finishes, FoundNone};
ghost use Rattle.ecp_cluster.specs.Wiping.{IsWipedAfter, MayWipeAfter};

use crate::service::Service;
use crate::{NoMemory, Pass};
use ecp_book::{Book, Names};
use ecp_coord::NodeAct;
use ecp_entry::{Act, Deed};
use ecp_helper::Gate;
use ecp_node::Node;
use ecp_node::limits::MAX_LOSSES;
use ecp_store::Store;
use std::sync::Wait;

impl<N: Names, S: Store, G: Gate> Service<N, S, G> {
    /// A node goes down, and all its blocks are given up. The answer is the act of the call's entry: `Lost` with the number
    /// of live blocks that were on it, `NodeDown` where it is down, or `NoSuchNode`.
    ///
    /// It takes the node's lock, and then the coordinator's for the event; the node is wiped before its lock is free again.
    /// Want of memory is the only error: then the call has no entry.
    pub fn lose<R: Wait>(&self, rt: &R, pass: &mut Pass<N>, node: u32) -> Result<Act, NoMemory>
        requires whole { IsWhole pass.old }
        ensures ok { IfOk result (λ act. Answered N.shape N.told pass.old (Lose node) act [] pass.new) }
        ensures err { OnErr result (FoundNone pass.old pass.new) }
        ensures whole { IsWhole pass.new }
    {
        self.begin(rt, pass, Deed::Lose { node })?;
        Ok(self.put_down(rt, pass, node).act())
    }

    // What becomes of the node: its loss, where it exists.
    fn put_down<R: Wait>(&self, rt: &R, pass: &mut Pass<N>, node: u32) -> NodeAct
        requires { IsOpen pass.old (Lose node) }
        ensures { Finishes N.shape N.told pass.old (Lose node) (act_of result) pass.new }
    {
        match self.helpers.get(node as usize) {
            Some(helper) => {
                let mut helper = helper.lock(rt);
                self.lose_at(rt, pass, helper.node(), node)
            }
            None => self.enter_loss(rt, pass, node),
        }
    }

    // The loss of the node that is found in this place. The pass knows its past first, so that the front that it has after
    // the event has one loss of it more than the node has wipes.
    fn lose_at<R: Wait>(
        &self,
        rt: &R,
        pass: &mut Pass<N>,
        at: &mut Node<N, S>,
        node: u32,
    ) -> NodeAct
        requires { IsOpen pass.old (Lose node) }
        ensures ended { Finishes N.shape N.told pass.old (Lose node) (act_of result) pass.new }
        ensures wiped { IsWipedAfter result node pass.new.front at.old at.new }
    {
        let mut past = at.past(&self.book);
        pass.raise(&self.book, &mut past);
        let found = self.enter_loss(rt, pass, node);
        wipe_lost(&self.book, pass, at, node, found);
        found
    }

    // The event, under the coordinator's lock.
    fn enter_loss<R: Wait>(&self, rt: &R, pass: &mut Pass<N>, node: u32) -> NodeAct
        requires { IsOpen pass.old (Lose node) }
        ensures { Finishes N.shape N.told pass.old (Lose node) (act_of result) pass.new }
    {
        self.coord.lock(rt).lose(&self.book, pass, node)
    }
}

// Wipes the node after its loss, for the losses in the pass's front. What is found in a place is known by its type alone, so
// its number is looked at.
fn wipe_lost<N: Names, S: Store>(
    book: &Book<N>,
    pass: &mut Pass<N>,
    at: &mut Node<N, S>,
    node: u32,
    found: NodeAct,
)
    requires { MayWipeAfter found node pass.old.front at.old }
    ensures pass { pass.new ≡ pass.old }
    ensures wiped { IsWipedAfter found node pass.old.front at.old at.new }
{
    let NodeAct::Lost(_) = found else {
        return;
    };
    let front = pass.front(book);
    if u32::from(at.number()) == node && front.len() <= MAX_LOSSES {
        at.wipe(book, front);
    }
}
