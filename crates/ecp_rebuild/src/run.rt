ghost use Rattle.std.specs.Prelude.{◌≡◌, ◌≤◌, length, vec_len, All, IfOk, IfErr};
ghost use Rattle.std.specs.List.{AllZip, zip};
ghost use Rattle.ecp_rebuild.specs.Tasks.{HasDistinctParts, HasNoneOf, DidTogether};
ghost use Rattle.ecp_rebuild.specs.Workers.{IsReady, Worked};

use crate::NoMemory;
use crate::done::Done;
use crate::finish::end_run;
use crate::mender::Mender;
use crate::rule::Queue;
use crate::start::{Prepared, prepare, seat};
use crate::worker::{Worker, work};
use ecp_history::Task;
use std::alloc::Global;
use std::sync::Wait;
use std::thread;
use std::thread::Threads;

/// Does each task once, by all hands at once, each in a thread of its own. Where a thread cannot be started, the caller
/// does that hand's work.
///
/// Outcome j is that of task j. The hands come back in their order, each fit and the same, and what they have done has
/// grown by the tasks with their outcomes. There may be no task; then there is no outcome.
///
/// Want of memory is the only error. It comes before any task is begun, and gives the hands back as they were. A task
/// that runs out of memory says so as its outcome, and the others are done all the same.
pub fn run_tasks<M, R>(
    rt: &R,
    alloc: Global,
    tasks: Vec<Task>,
    mut hands: Vec<M::Hand>,
    m: &M,
) -> Result<Done<M::Hand>, (NoMemory, Vec<M::Hand>)>
where
    M: Mender + Sync,
    M::Hand: Send,
    R: Threads + Wait + Sync,
    requires hands { 1 ≤ vec_len hands }
    requires fit { All (M.fit m.now) hands.items }
    requires takes { All (M.takes m.now) tasks.items }
    requires parts { HasDistinctParts tasks.items }
    requires fresh { All (λ h. HasNoneOf tasks.items (M.did h)) hands.items }
    ensures answers { IfOk result (λ d. AllZip (M.answers m.now) tasks.items d.outcomes.items) }
    ensures fit { IfOk result (λ d. All (M.fit m.now) d.hands.items) }
    ensures same { IfOk result (λ d. AllZip (λ g h. M.who h ≡ M.who g) hands.items d.hands.items) }
    ensures did { IfOk result (λ d. DidTogether M.did hands.items d.hands.items (zip tasks.items d.outcomes.items)) }
    ensures refused { IfErr result (λ e. e.1.items ≡ hands.items) }
{
    let Prepared {
        queue,
        mut pass,
        rooms,
        mut workers,
        outcomes,
    } = match prepare(rt, alloc, tasks.as_slice(), hands.len()) {
        Ok(prepared) => prepared,
        Err(e) => return Err((e, hands)),
    };
    seat(&queue, &mut pass, &mut hands, rooms, &mut workers);
    work_at_once(rt, alloc, &queue, m, workers.as_mut_slice());
    Ok(end_run(rt, alloc, &queue, m, pass, workers, hands, outcomes))
}

// Sets all workers to work at once. A worker whose thread cannot be started works in the caller's.
fn work_at_once<M, R>(rt: &R, alloc: Global, queue: &Queue, m: &M, workers: &mut [Worker<M::Hand>])
where
    M: Mender + Sync,
    M::Hand: Send,
    R: Threads + Wait + Sync,
    requires some { 1 ≤ length workers.old }
    requires ready { All (IsReady queue.now (M.fit m.now) (M.takes m.now) M.did) workers.old }
    ensures { AllZip (Worked queue.now (M.fit m.now) (M.answers m.now) M.did M.who) workers.old workers.new }
{
    let threads = workers.len();
    thread::for_each_mut(
        rt,
        workers,
        threads,
        &|_, worker: &mut Worker<M::Hand>|
            requires { IsReady queue.now (M.fit m.now) (M.takes m.now) M.did worker.now }
            ensures { Worked queue.entry.now (M.fit m.entry.now) (M.answers m.entry.now) M.did M.who worker.entry.now worker.exit.now }
        { work(rt, alloc, queue, m, worker) },
    );
}
