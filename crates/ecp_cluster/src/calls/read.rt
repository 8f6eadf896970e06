//! The call by which a block is read.
ghost use Rattle.std.specs.Prelude.{◌≡◌, ◌≤◌, [], false, length, IfOk, IfErr, OnErr, None, Some};
ghost use Rattle.ecp_shape.specs.declared.limits.TheConstants.{MAX_NAME};
ghost use Rattle.ecp_entry.specs.declared.deed.Deed.TheVariants.{Read};
ghost use Rattle.ecp_entry.specs.declared.deed.Deed.{Deed};
ghost use Rattle.ecp_sequencer.specs.Passes.{IsWhole};
ghost use Rattle.ecp_coord.specs.Calls.{IsOpen};
ghost use Rattle.ecp_coord.specs.Plans.{CanPlan, IsPlanned, part_for, refusal_of};
ghost use Rattle.ecp_requestor.specs.Fetching.{Fetches, GoesOn, IsBlockOf};
ghost use Rattle.ecp_cluster.specs.Answered.{Answered, FoundNone};
ghost use Rattle.ecp_cluster.specs.Concluded.{Answers, EndsUnplanned, GoesBy, IsPlannedFrom, ReadBy, WentOn};
ghost use Rattle.ecp_cluster.specs.Summed.{no_digest};

use crate::answer::Answer;
use crate::service::Service;
use crate::{NoMemory, Pass};
use ecp_book::Names;
use ecp_coord::{Ask, NoPlan};
use ecp_entry::{Act, Deed, Name};
use ecp_helper::Gate;
use ecp_plan::Plan;
use ecp_requestor::{Assembled, Fetched, fetch};
use ecp_store::{Block, Store};
use std::sync::Wait;

impl<N: Names, S: Store + Drop, G: Gate> Service<N, S, G> {
    /// Reads a block of a file: of the block with this number in the file of this name, counted from 0. The answer has the
    /// act of the call's entry: `Data`, with the block's bytes, `NoSuchFile`, `NoSuchBlock`, `Unrecoverable` or `Unsteady`.
    ///
    /// A block that is lost is made of k others of its stripe, which pass slice by slice through the helpers of their nodes.
    /// The caller's own thread turns the helpers while it waits. Want of memory is the only error: then the call has no
    /// entry.
    pub fn read<R: Wait>(
        &self,
        rt: &R,
        pass: &mut Pass<N>,
        name: &str,
        index: u32,
    ) -> Result<Answer, NoMemory>
        requires some { 1 ≤ length name.now }
        requires short { length name.now ≤ MAX_NAME }
        requires whole { IsWhole pass.old }
        ensures ok { IfOk result (λ a. Answered N.shape N.told pass.old (Read name.now index) a.act a.bytes pass.new) }
        ensures digest { IfOk result (λ a. (a.by_digest ≡ false) × (a.digest ≡ no_digest)) }
        ensures err { OnErr result (FoundNone pass.old pass.new) }
        ensures whole { IsWhole pass.new }
    {
        let deed = Deed::Read {
            name: Name::new(name),
            index,
        };
        self.begin(rt, pass, deed)?;
        self.read_on(rt, pass, Ask::Read { name, index })
    }

    /// What becomes of a part of a call that asks for a block, which is the end of a read or a sum: the answer by the block's
    /// bytes.
    pub(crate) fn read_on<R: Wait>(
        &self,
        rt: &R,
        pass: &mut Pass<N>,
        ask: Ask<'_>,
    ) -> Result<Answer, NoMemory>
        requires { CanPlan N.shape pass.old ask }
        ensures ok { (asked : Deed) → IsOpen pass.old asked → IfOk result (λ a. Answers N.shape N.told pass.old asked (part_for ask.entry) a.act a.bytes pass.new) }
        ensures digest { IfOk result (λ a. (a.by_digest ≡ false) × (a.digest ≡ no_digest)) }
        ensures err { OnErr result (WentOn pass.old pass.new) }
    {
        match self.plan_read(rt, pass, ask) {
            Ok(plan) => self.read_by(rt, pass, plan),
            Err(why) => self.unplanned(why),
        }
    }

    // The answer of a part that has no plan: the act that says why, or want of memory.
    fn unplanned(&self, why: NoPlan) -> Result<Answer, NoMemory>
        ensures ok { IfOk result (λ a. (refusal_of why ≡ Some a.act) × (a.bytes ≡ [])) }
        ensures digest { IfOk result (λ a. (a.by_digest ≡ false) × (a.digest ≡ no_digest)) }
        ensures err { OnErr result (refusal_of why ≡ None) }
    {
        match why {
            NoPlan::NoSuchFile => Ok(self.only(Act::NoSuchFile)),
            NoPlan::NoSuchBlock(count) => Ok(self.only(Act::NoSuchBlock(count))),
            NoPlan::Unrecoverable(live) => Ok(self.only(Act::Unrecoverable(live))),
            NoPlan::AlreadyLive | NoPlan::Clash(_) | NoPlan::TargetDown(_) | NoPlan::NoMemory => {
                Err(NoMemory)
            }
        }
    }

    /// The plan of a block that is asked for, under the coordinator's lock.
    pub(crate) fn plan_read<R: Wait>(
        &self,
        rt: &R,
        pass: &mut Pass<N>,
        ask: Ask<'_>,
    ) -> Result<Plan<N>, NoPlan>
        requires { CanPlan N.shape pass.old ask }
        ensures ok { (asked : Deed) → IsOpen pass.old asked → IfOk result (λ plan. IsPlannedFrom N.shape N.told pass.old asked plan pass.new) }
        ensures part { IfOk result (λ plan. plan.part ≡ part_for ask.entry) }
        ensures err { (asked : Deed) → IsOpen pass.old asked → IfErr result (λ why. EndsUnplanned N.shape N.told pass.old asked (part_for ask.entry) why pass.new) }
    {
        self.coord.lock(rt).plan(self.alloc, &self.book, pass, ask)
    }

    // What becomes of the part of a call that has this plan.
    fn read_by<R: Wait>(
        &self,
        rt: &R,
        pass: &mut Pass<N>,
        plan: Plan<N>,
    ) -> Result<Answer, NoMemory>
        requires { IsPlanned N.shape N.told pass.old plan }
        ensures ok { IfOk result (λ a. ReadBy N.shape N.told pass.old plan a.act a.bytes pass.new) }
        ensures digest { IfOk result (λ a. (a.by_digest ≡ false) × (a.digest ≡ no_digest)) }
        ensures err { OnErr result (GoesBy N.shape N.told pass.old plan pass.new) }
    {
        match self.fetch_by(rt, pass, plan)? {
            Fetched::Whole(plan, block) => Ok(self.give(rt, pass, plan, block)),
            Fetched::Unrecoverable(live) => Ok(self.only(Act::Unrecoverable(live))),
            Fetched::Unsteady(voids) => Ok(self.only(Act::Unsteady(voids.at))),
            Fetched::TargetDown(_) => unreachable!(),
        }
    }

    // The fetch by the caller's port. Each caller has one: without one, which no caller is, the call would not return.
    fn fetch_by<R: Wait>(
        &self,
        rt: &R,
        pass: &mut Pass<N>,
        plan: Plan<N>,
    ) -> Result<Fetched<N>, NoMemory>
        requires { IsPlanned N.shape N.told pass.old plan }
        ensures ok { IfOk result (Fetches N.shape N.told pass.old plan pass.new) }
        ensures err { OnErr result (GoesOn pass.old pass.new) }
    {
        if let Some(port) = self.ports.get(usize::from(pass.caller())) {
            let mut port = port.lock(rt);
            return fetch(
                rt,
                self.alloc,
                &self.book,
                self,
                pass,
                plan,
                &mut port,
                self.window,
            );
        }
        for _ in rt.forever() {}
        unreachable!()
    }

    // The plan's part ends with the bytes of its block, under the coordinator's lock.
    fn give<R: Wait>(
        &self,
        rt: &R,
        pass: &mut Pass<N>,
        mut plan: Plan<N>,
        block: Assembled<N>,
    ) -> Answer
        requires planned { IsPlanned N.shape N.told pass.old plan }
        requires block { IsBlockOf N.shape N.told plan block }
        ensures read { ReadBy N.shape N.told pass.old plan result.act result.bytes pass.new }
        ensures digest { (result.by_digest ≡ false) × (result.digest ≡ no_digest) }
    {
        self.coord
            .lock(rt)
            .finish(&self.book, pass, &mut plan, block.bytes());
        Answer {
            act: Act::Data,
            bytes: Block::new(block.into_bytes()),
            by_digest: false,
            digest: [0; 32],
            len: 0,
            cause: Act::Data,
        }
    }

    /// An answer without bytes, digest or file.
    pub(crate) fn only(&self, act: Act) -> Answer
        ensures act { (result.act ≡ act) × (result.bytes ≡ []) }
        ensures digest { (result.by_digest ≡ false) × (result.digest ≡ no_digest) }
        ensures file { (result.len ≡ 0) × (result.cause ≡ act) }
    {
        Answer {
            act,
            bytes: Block::new(Vec::new(self.alloc)),
            by_digest: false,
            digest: [0; 32],
            len: 0,
            cause: act,
        }
    }
}
