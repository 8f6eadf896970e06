//! What is made before any task is begun: the queue with all jobs, and the workers.
ghost use Rattle.std.specs.Prelude.{◌≡◌, ◌-◌, ◌<◌, ◌≤◌, [], IfOk, length, vec_len, vec_capacity};
ghost use Rattle.std.specs.List.{AllZip};
ghost use mathlib.Core.List.{reverse};
ghost use Rattle.crossbeam_queue.specs.Passes.{view, IsPassOf};
ghost use Rattle.ecp_rebuild.specs.Rules.{view_of, every_part};
ghost use Rattle.ecp_rebuild.specs.Workers.{HaveRoom, IsSeated, jobs_from};

use crate::NoMemory;
use crate::ended::Ended;
use crate::job::Job;
use crate::outcome::Outcome;
use crate::rule::{Pass, Put, Queue, Share};
use crate::worker::Worker;
use ecp_history::Task;
use std::alloc::{AllocError, Global};
use std::sync::Wait;

/// What a run takes before it begins.
#[derive(Drop)]
pub(crate) struct Prepared<H> {
    pub(crate) queue: Queue,
    pub(crate) pass: Pass,
    pub(crate) rooms: Vec<Vec<Ended>>,
    pub(crate) workers: Vec<Worker<H>>,
    pub(crate) outcomes: Vec<Outcome>,
}

/// Takes all the memory of a run of these tasks by so many hands.
pub(crate) fn prepare<H: Drop, R: Wait>(
    rt: &R,
    alloc: Global,
    tasks: &[Task],
    hands: usize,
) -> Result<Prepared<H>, NoMemory>
    ensures pass { IfOk result (λ s. IsPassOf s.queue s.pass) }
    ensures jobs { IfOk result (λ s. view s.pass ≡ view_of every_part (jobs_from 0 tasks.now) []) }
    ensures rooms { IfOk result (λ s. (vec_len s.rooms ≡ hands) × HaveRoom (length tasks.now) s.rooms.items) }
    ensures workers { IfOk result (λ s. (s.workers.items ≡ []) × (hands ≤ vec_capacity s.workers)) }
    ensures outcomes { IfOk result (λ s. vec_len s.outcomes ≡ length tasks.now) }
{
    let (queue, pass) = filled(rt, alloc, tasks)?;
    Ok(Prepared {
        queue,
        pass,
        rooms: rooms(alloc, hands, tasks.len())?,
        workers: Vec::with_capacity(alloc, hands)?,
        outcomes: Vec::from_elem(alloc, Outcome::NoMemory, tasks.len())?,
    })
}

// A queue with all jobs in it, and the pass that has every part.
fn filled<R: Wait>(rt: &R, alloc: Global, tasks: &[Task]) -> Result<(Queue, Pass), NoMemory>
    ensures pass { IfOk result (λ r. IsPassOf r.0 r.1) }
    ensures jobs { IfOk result (λ r. view r.1 ≡ view_of every_part (jobs_from 0 tasks.now) []) }
{
    let (queue, mut pass) = Queue::ruled(alloc, tasks.len().max(1))?;
    for number in 0..tasks.len() {
        let job = Job {
            number,
            task: tasks[number],
        };
        let Ok(()) = queue.push_as::<Put, R>(rt, &mut pass, job) else {
            return Err(AllocError);
        };
    }
    Ok((queue, pass))
}

// So many empty lists, each with room for the outcomes of all jobs.
fn rooms(alloc: Global, count: usize, jobs: usize) -> Result<Vec<Vec<Ended>>, NoMemory>
    ensures count { IfOk result (λ v. vec_len v ≡ count) }
    ensures room { IfOk result (λ v. HaveRoom jobs v.items) }
{
    let mut rooms = Vec::with_capacity(alloc, count)?;
    for _ in 0..count {
        rooms.push(Vec::with_capacity(alloc, jobs)?)?;
    }
    Ok(rooms)
}

/// Makes a worker of each hand, the last hand first.
pub(crate) fn seat<H>(
    queue: &Queue,
    pass: &mut Pass,
    hands: &mut Vec<H>,
    mut rooms: Vec<Vec<Ended>>,
    workers: &mut Vec<Worker<H>>,
)
    requires pass { IsPassOf queue.now pass.old }
    requires parts { vec_len hands.old < (view pass.old).parts }
    requires count { vec_len rooms ≡ vec_len hands.old }
    requires room { HaveRoom (length (view pass.old).jobs) rooms.items }
    requires workers { (workers.old.items ≡ []) × (vec_len hands.old ≤ vec_capacity workers.old) }
    ensures pass { IsPassOf queue.now pass.new }
    ensures view { let v = view pass.old in view pass.new ≡ view_of (v.parts - vec_len hands.old) v.jobs v.taken }
    ensures hands { (hands.new.items ≡ []) × (vec_capacity hands.new ≡ vec_capacity hands.old) }
    ensures seated { AllZip (IsSeated queue.now (view pass.old).jobs) hands.old.items (reverse workers.new.items) }
{
    while let Some(hand) = hands.pop() {
        let ended = rooms.remove(rooms.len() - 1);
        workers.push_reserved(Worker {
            hand,
            pass: queue.another::<Share>(pass),
            ended,
        });
    }
}
