//! How each call begins.
ghost use Rattle.std.specs.Prelude.{OnOk, OnErr};
ghost use Rattle.ecp_sequencer.specs.Passes.{IsWhole};
ghost use Rattle.ecp_cluster.specs.Answered.{FoundNone, HasBegun};

use crate::service::Service;
use crate::{NoMemory, Pass};
use ecp_book::Names;
use ecp_entry::Deed;
use ecp_helper::Gate;
use ecp_store::Store;
use std::sync::Wait;

impl<N: Names, S: Store, G: Gate> Service<N, S, G> {
    /// Begins the pass's next call, under the coordinator's lock. Want of memory is the only error.
    pub(crate) fn begin<R: Wait>(
        &self,
        rt: &R,
        pass: &mut Pass<N>,
        deed: Deed,
    ) -> Result<(), NoMemory>
        requires { IsWhole pass.old }
        ensures ok { OnOk result (HasBegun pass.old deed pass.new) }
        ensures err { OnErr result (FoundNone pass.old pass.new) }
    {
        let _number = pass.calls();
        self.coord.lock(rt).begin(&self.book, pass, deed)
    }
}
