//! What is taken together once the workers have ended.
ghost use Rattle.std.specs.Prelude.{◌≡◌, ◌+◌, ◌<◌, ◌≤◌, ◌++◌, All, length, vec_len, vec_capacity};
ghost use mathlib.Core.List.{reverse};
ghost use Rattle.crossbeam_queue.specs.Passes.{view, IsPassOf};
ghost use Rattle.ecp_rebuild.specs.Workers.{TookItsOwn, placed, gathered, hands_of, all_ended};

use crate::ended::Ended;
use crate::outcome::Outcome;
use crate::rule::{Gather, Pass, Queue};
use crate::worker::Worker;

/// Takes the workers apart, the last first: the pass takes in theirs, the hands come back, and each outcome comes to its place.
pub(crate) fn gather_all<H: Drop>(
    queue: &Queue,
    pass: &mut Pass,
    mut workers: Vec<Worker<H>>,
    hands: &mut Vec<H>,
    outcomes: &mut [Outcome],
)
    requires pass { IsPassOf queue.now pass.old × (0 < (view pass.old).parts) }
    requires own { All (TookItsOwn queue.now (view pass.old).jobs) workers.items }
    requires room { vec_len hands.old + vec_len workers ≤ vec_capacity hands.old }
    requires places { All (λ j. j.number < length outcomes.old) (view pass.old).jobs }
    ensures pass { IsPassOf queue.now pass.new }
    ensures view { view pass.new ≡ gathered (view pass.old) (reverse workers.items) }
    ensures hands { hands.new.items ≡ hands.old.items ++ hands_of (reverse workers.items) }
    ensures capacity { vec_capacity hands.new ≡ vec_capacity hands.old }
    ensures outcomes { outcomes.new ≡ placed (all_ended (reverse workers.items)) outcomes.old }
{
    while let Some(worker) = workers.pop() {
        let Worker {
            hand,
            pass: theirs,
            ended,
        } = worker;
        queue.absorb::<Gather>(pass, theirs);
        place(outcomes, ended.as_slice());
        hands.push_reserved(hand);
    }
}

/// Puts each outcome at the number of its job.
pub(crate) fn place(outcomes: &mut [Outcome], ended: &[Ended])
    requires { All (λ e. e.job.number < length outcomes.old) ended.now }
    ensures { outcomes.new ≡ placed ended.now outcomes.old }
{
    for done in ended {
        outcomes[done.job.number] = done.outcome;
    }
}
