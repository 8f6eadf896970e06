ghost use Rattle.std.specs.Prelude.{◌≡◌, ◌↔◌, IfOk, IsTrue};
ghost use Rattle.ecp_coord.specs.Plans.{IsPlanned};
ghost use Rattle.ecp_plan.specs.Plans.{IsSound};
ghost use Rattle.ecp_requestor.specs.Assemblies.{IsComplete};
ghost use Rattle.ecp_requestor.specs.Fetching.{IsWhole, Looks};

use crate::accepted::Accepted;
use crate::assembly::Assembly;
use crate::crew::Crew;
use crate::fetched::Fetched;
use crate::flight::Flight;
use crate::port::Port;
use ecp_book::{Book, Names};
use ecp_coord::{Pass, Replanned};
use ecp_plan::Plan;
use ecp_slice::SliceMsg;
use ecp_store::NoMemory;
use std::alloc::Global;
use std::marker::Model;
use std::sync::Wait;

/// A fetch under way: its plan, what came home of the block, and the messages of the attempt. Contracts see the first two.
#[derive(Drop)]
pub(crate) struct Errand<N: Names> {
    plan: Plan<N>,
    assembly: Assembly<N>,
    flight: Flight<N>,
    window: u32,
    home: u8,
}

impl<N: Names> Model for Errand<N> {
    ghost use Rattle.ecp_requestor.specs.Errands.{ErrandState, IsErrand};

    ghost Value = { ErrandState N };

    ghost view = { λ e. record { plan = e.plan; assembly = e.assembly } };

    ghost invariant = { λ e. IsErrand N.shape N.told e.plan e.assembly };
}

impl<N: Names> Errand<N> {
    /// The first attempt: no slice is there, and messages for the first ones are ready, at most `window`. Messages go home
    /// to port `home`. Want of memory is the only error, and drops the plan.
    pub(crate) fn begin(
        alloc: Global,
        book: &Book<N>,
        mut plan: Plan<N>,
        window: u32,
        home: u8,
    ) -> Result<Errand<N>, NoMemory>
        requires { IsSound N.shape N.told plan }
        ensures { IfOk result (λ e. e.plan ≡ plan) }
    {
        let assembly = Assembly::new(alloc, book, &mut plan)?;
        let flight = Flight::begin(alloc, book, &mut plan, window, home)?;
        Ok(Errand {
            plan,
            assembly,
            flight,
            window,
            home,
        })
    }

    /// Sends what is ready, and takes a message that came home. Answers whether one came.
    pub(crate) fn exchange(&mut self, book: &Book<N>, port: &mut Port<N>) -> bool
        ensures { self.new.plan ≡ self.old.plan }
    {
        self.flight.send(port);
        match port.pop() {
            Some(message) => {
                self.take(book, message);
                true
            }
            None => false,
        }
    }

    /// Takes the slice of a message, and begins the next one with it. One that is refused or has no slice yet is dropped.
    fn take(&mut self, book: &Book<N>, mut message: SliceMsg<N>)
        ensures { self.new.plan ≡ self.old.plan }
    {
        if !message.is_full() {
            return;
        }
        match self.assembly.accept(book, &mut message) {
            Accepted::Taken => self.flight.restart(self.plan.slices(), message),
            Accepted::Stale(_) | Accepted::Foreign(_) | Accepted::Repeat(_) => {}
        }
    }

    /// Asks for the plan anew where the attempt was given up. Another attempt begins with messages of its own, for which it
    /// takes memory.
    pub(crate) fn look<C: Crew<N>, R: Wait>(
        &mut self,
        rt: &R,
        alloc: Global,
        book: &Book<N>,
        crew: &C,
        pass: &mut Pass<N>,
    ) -> Result<Option<Fetched<N>>, NoMemory>
        requires { IsPlanned N.shape N.told pass.old self.old.plan }
        ensures { Looks N.shape N.told pass.old self.old.plan self.new.plan pass.new result }
    {
        if !self.flight.is_cancelled() {
            return Ok(None);
        }
        match crew.replan(rt, book, pass, &mut self.plan) {
            Replanned::Planned => {
                self.assembly.renew(book, &mut self.plan);
                self.flight = Flight::begin(alloc, book, &mut self.plan, self.window, self.home)?;
                Ok(None)
            }
            Replanned::StillGood => Ok(None),
            Replanned::Unrecoverable(live) => Ok(Some(Fetched::Unrecoverable(live))),
            Replanned::TargetDown(node) => Ok(Some(Fetched::TargetDown(node))),
            Replanned::Unsteady => Ok(Some(Fetched::Unsteady(self.plan.voids))),
        }
    }

    /// Whether every slice is there.
    pub(crate) fn is_complete(&self) -> bool
        ensures { IsTrue result ↔ IsComplete self.now.assembly }
    {
        self.assembly.is_complete()
    }

    /// The block, with the plan that made it.
    pub(crate) fn whole(self) -> Fetched<N>
        requires { IsComplete self.assembly }
        ensures { IsWhole N.shape N.told self.plan result }
    {
        let Errand { plan, assembly, .. } = self;
        match assembly.complete() {
            Ok(block) => Fetched::Whole(plan, block),
            Err(_) => unreachable!(),
        }
    }
}
