ghost use Rattle.crossbeam_queue.specs.Passes.{view};
ghost use Rattle.ecp_rebuild.specs.Workers.{IsReady, Worked, TookEach};

use crate::ended::Ended;
use crate::mender::Mender;
use crate::rule::{Pass, Queue, Take};
use std::alloc::Global;
use std::sync::Wait;

/// A hand at work: its pass of the queue, and what it has done, in room for the outcomes of all jobs.
#[derive(Drop)]
pub(crate) struct Worker<H> {
    pub(crate) hand: H,
    pub(crate) pass: Pass,
    pub(crate) ended: Vec<Ended>,
}

/// Takes jobs and does them, until the queue is empty.
pub(crate) fn work<M: Mender, R: Wait>(
    rt: &R,
    alloc: Global,
    queue: &Queue,
    m: &M,
    worker: &mut Worker<M::Hand>,
)
    requires { IsReady queue.now (M.fit m.now) (M.takes m.now) M.did worker.old }
    ensures worked { Worked queue.now (M.fit m.now) (M.answers m.now) M.did M.who worker.old worker.new }
    ensures all { TookEach (view worker.new.pass) }
{
    for _ in rt.forever() {
        let Some(job) = queue.pop_as::<Take, R>(rt, &mut worker.pass) else {
            break;
        };
        let outcome = m.mend(rt, alloc, &mut worker.hand, job.task);
        worker.ended.push_reserved(Ended { job, outcome });
    }
}
