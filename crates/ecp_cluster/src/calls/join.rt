//! The call by which a node comes up.
ghost use Rattle.std.specs.Prelude.{[], IfOk, OnErr};
ghost use Rattle.ecp_entry.specs.declared.deed.Deed.TheVariants.{Join};
ghost use Rattle.ecp_sequencer.specs.Passes.{IsWhole};
ghost use Rattle.ecp_coord.specs.Calls.{IsOpen};
ghost use Rattle.ecp_coord.specs.Losing.{act_of};
ghost use Rattle.ecp_cluster.specs.Answered.{Answered, Finishes, FoundNone};

use crate::service::Service;
use crate::{NoMemory, Pass};
use ecp_book::Names;
use ecp_coord::NodeAct;
use ecp_entry::{Act, Deed};
use ecp_helper::Gate;
use ecp_store::Store;
use std::sync::Wait;

impl<N: Names, S: Store, G: Gate> Service<N, S, G> {
    /// A node comes up, empty. The answer is the act of the call's entry: `Joined` with the node's incarnation of now, `NodeUp`
    /// where it is up already, or `NoSuchNode`. What was lost on it stays lost.
    ///
    /// It takes the coordinator's lock alone: the node was wiped when it was lost. Want of memory is the only error: then the
    /// call has no entry.
    pub fn join<R: Wait>(&self, rt: &R, pass: &mut Pass<N>, node: u32) -> Result<Act, NoMemory>
        requires whole { IsWhole pass.old }
        ensures ok { IfOk result (λ act. Answered N.shape N.told pass.old (Join node) act [] pass.new) }
        ensures err { OnErr result (FoundNone pass.old pass.new) }
        ensures whole { IsWhole pass.new }
    {
        self.begin(rt, pass, Deed::Join { node })?;
        Ok(self.enter_join(rt, pass, node).act())
    }

    // The event, under the coordinator's lock.
    fn enter_join<R: Wait>(&self, rt: &R, pass: &mut Pass<N>, node: u32) -> NodeAct
        requires { IsOpen pass.old (Join node) }
        ensures { Finishes N.shape N.told pass.old (Join node) (act_of result) pass.new }
    {
        self.coord.lock(rt).join(&self.book, pass, node)
    }
}
