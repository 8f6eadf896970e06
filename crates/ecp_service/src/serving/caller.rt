//! A caller of the service, with the calls of its session.
ghost use Rattle.std.specs.Prelude.{◌≡◌, [], false, OnOk};
ghost use Rattle.ecp_service.specs.Callers.{CanServe, IsSeated, ServedPhase};

use crate::serving::calls::serve_next;
use ecp_book::Names;
use ecp_cluster::{Answer, Pass, Service};
use ecp_command::Planned;
use ecp_helper::Gate;
use ecp_store::{NoMemory, Store};
use std::alloc::Global;
use std::sync::Wait;

/// A caller: its pass, the calls of its session, and the answers to the first of them. Where memory ran out for one of its
/// calls, that one and those behind it have no answer.
#[derive(Drop)]
pub(super) struct Caller<N: Names> {
    pub pass: Pass<N>,
    pub calls: Vec<Planned>,
    pub answers: Vec<Answer>,
    pub failed: bool,
}

impl<N: Names> Caller<N> {
    /// A caller without a call.
    pub(super) fn new(alloc: Global, pass: Pass<N>) -> Caller<N>
        ensures { IsSeated pass [] result }
    {
        Caller {
            pass,
            calls: Vec::new(alloc),
            answers: Vec::new(alloc),
            failed: false,
        }
    }

    /// Gives the caller its calls, and takes room for their answers.
    pub(super) fn seat(&mut self, alloc: Global, calls: Vec<Planned>) -> Result<(), NoMemory>
        requires { self.old.failed ≡ false }
        ensures { OnOk result (IsSeated self.old.pass calls.items self.new) }
    {
        self.answers = Vec::with_capacity(alloc, calls.len())?;
        self.calls = calls;
        Ok(())
    }

    /// Serves the next calls of the caller that are of this phase, one after another.
    pub(super) fn serve<S: Store + Drop, G: Gate, R: Wait>(
        &mut self,
        rt: &R,
        alloc: Global,
        service: &Service<N, S, G>,
        phase: u32,
    )
        requires { CanServe self.old }
        ensures { ServedPhase N.shape N.told phase self.old self.new }
    {
        let served = serve_next(
            rt,
            alloc,
            service,
            &mut self.pass,
            &self.calls,
            &mut self.answers,
            phase,
        );
        match served {
            Ok(()) => {}
            Err(NoMemory) => self.failed = true,
        }
    }
}
