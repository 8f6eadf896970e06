//! The call by which the digest of a block is had.
ghost use Rattle.std.specs.Prelude.{◌≡◌, ◌≤◌, length, IfOk, OnErr};
ghost use Rattle.ecp_shape.specs.declared.limits.TheConstants.{MAX_NAME};
ghost use Rattle.ecp_entry.specs.declared.deed.Deed.TheVariants.{Sum};
ghost use Rattle.ecp_sequencer.specs.Passes.{IsWhole};
ghost use Rattle.ecp_cluster.specs.Answered.{FoundNone};
ghost use Rattle.ecp_cluster.specs.Summed.{Summed};

use crate::answer::Answer;
use crate::service::Service;
use crate::{NoMemory, Pass};
use ecp_book::Names;
use ecp_coord::Ask;
use ecp_entry::{Deed, Name};
use ecp_helper::Gate;
use ecp_store::Store;
use std::sync::Wait;

impl<N: Names, S: Store + Drop, G: Gate> Service<N, S, G> {
    /// Has the digest of a block of a file, which is had as by [`read`](Service::read): of the block with this number in the
    /// file of this name, counted from 0. The answer has the act of the call's entry, as that of a read, and no bytes; where
    /// the act is `Data` it has the SHA-256 of the whole block.
    ///
    /// Want of memory is the only error: then the call has no entry.
    pub fn sum<R: Wait>(
        &self,
        rt: &R,
        pass: &mut Pass<N>,
        name: &str,
        index: u32,
    ) -> Result<Answer, NoMemory>
        requires some { 1 ≤ length name.now }
        requires short { length name.now ≤ MAX_NAME }
        requires whole { IsWhole pass.old }
        ensures ok { IfOk result (λ a. Summed N.shape N.told pass.old (Sum name.now index) a pass.new) }
        ensures err { OnErr result (FoundNone pass.old pass.new) }
        ensures whole { IsWhole pass.new }
    {
        let deed = Deed::Sum {
            name: Name::new(name),
            index,
        };
        self.begin(rt, pass, deed)?;
        let answer = self.read_on(rt, pass, Ask::Sum { name, index })?;
        Ok(answer.digested(self.alloc))
    }
}
