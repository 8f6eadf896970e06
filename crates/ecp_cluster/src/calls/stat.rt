//! The call that says the sizes of a file, and how many of its blocks are live.
ghost use Rattle.std.specs.Prelude.{◌≡◌, ◌≤◌, [], length, IfOk, OnErr};
ghost use Rattle.ecp_shape.specs.declared.limits.TheConstants.{MAX_NAME};
ghost use Rattle.ecp_entry.specs.declared.deed.Deed.TheVariants.{Stat};
ghost use Rattle.ecp_sequencer.specs.Passes.{IsWhole};
ghost use Rattle.ecp_cluster.specs.Answered.{Answered, FoundNone};

use crate::service::Service;
use crate::{NoMemory, Pass};
use ecp_book::Names;
use ecp_entry::{Act, Deed, Name};
use ecp_helper::Gate;
use ecp_store::Store;
use std::sync::Wait;

impl<N: Names, S: Store, G: Gate> Service<N, S, G> {
    /// Says the sizes of the file of this name, and how many of its blocks are live. The answer is the act of the call's
    /// entry: `Stat` with the file's bytes, its blocks, and the live ones over all rows of all its stripes, or `NoSuchFile`.
    ///
    /// It takes the coordinator's lock alone. Want of memory is the only error: then the call has no entry.
    pub fn stat<R: Wait>(&self, rt: &R, pass: &mut Pass<N>, name: &str) -> Result<Act, NoMemory>
        requires some { 1 ≤ length name.now }
        requires short { length name.now ≤ MAX_NAME }
        requires whole { IsWhole pass.old }
        ensures ok { IfOk result (λ act. Answered N.shape N.told pass.old (Stat name.now) act [] pass.new) }
        ensures err { OnErr result (FoundNone pass.old pass.new) }
        ensures whole { IsWhole pass.new }
    {
        let deed = Deed::Stat {
            name: Name::new(name),
        };
        self.begin(rt, pass, deed)?;
        Ok(self.coord.lock(rt).stat(&self.book, pass, name))
    }
}
