//! The end of a run: what the workers leave is taken together.
ghost use Rattle.std.specs.Prelude.{◌≡◌, ◌+◌, ◌<◌, ◌≤◌, [], All, vec_len, vec_capacity};
ghost use mathlib.Core.List.{reverse};
ghost use Rattle.crossbeam_queue.specs.Passes.{view, IsPassOf};
ghost use Rattle.ecp_rebuild.specs.Rules.{every_part};
ghost use Rattle.ecp_rebuild.specs.Workers.{IsReady, TookItsOwn, Finishes};

use crate::done::Done;
use crate::gather::{gather_all, place};
use crate::mender::Mender;
use crate::outcome::Outcome;
use crate::rule::{Gather, Pass, Queue};
use crate::worker::{Worker, work};
use std::alloc::Global;
use std::sync::Wait;

/// Takes together what the workers leave, the last worker's hand first. With all passes in one, that worker looks once
/// more at the queue, which is empty, and so shows that each job was done once.
pub(crate) fn end_run<M: Mender, R: Wait>(
    rt: &R,
    alloc: Global,
    queue: &Queue,
    m: &M,
    pass: Pass,
    mut workers: Vec<Worker<M::Hand>>,
    mut hands: Vec<M::Hand>,
    mut outcomes: Vec<Outcome>,
) -> Done<M::Hand>
    requires pass { IsPassOf queue.now pass }
    requires parts { (view pass).parts + vec_len workers ≡ every_part }
    requires idle { (view pass).taken ≡ [] }
    requires some { 1 ≤ vec_len workers }
    requires own { All (TookItsOwn queue.now (view pass).jobs) workers.items }
    requires ready { All (IsReady queue.now (M.fit m.now) (M.takes m.now) M.did) workers.items }
    requires hands { (hands.items ≡ []) × (vec_len workers ≤ vec_capacity hands) }
    requires places { All (λ j. j.number < vec_len outcomes) (view pass).jobs }
    ensures { Finishes (M.fit m.now) (M.answers m.now) M.did M.who (view pass).jobs (reverse workers.items) outcomes.items result }
{
    let mut last = workers.remove(0);
    queue.absorb::<Gather>(&mut last.pass, pass);
    gather_all(
        queue,
        &mut last.pass,
        workers,
        &mut hands,
        outcomes.as_mut_slice(),
    );
    work(rt, alloc, queue, m, &mut last);
    let Worker { hand, ended, .. } = last;
    place(outcomes.as_mut_slice(), ended.as_slice());
    hands.push_reserved(hand);
    Done { hands, outcomes }
}
