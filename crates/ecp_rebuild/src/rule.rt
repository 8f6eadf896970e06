//! The rule of the queue that hands out the jobs, and its kinds of step.
ghost use Rattle.std.specs.Prelude.{◌≡◌, ◌+◌, ◌-◌, [], ◌∷◌, ◌++◌};
ghost use Rattle.ecp_rebuild.specs.Rules.{view_of, every_part, HandsOut, Takes, TookAll};

use crate::job::Job;
use crate::view::View;
use crossbeam_queue::RuledArrayQueue;
use crossbeam_queue::protocol::{Join, Lesson, Outcome, Protocol, Split};

pub(crate) type Queue = RuledArrayQueue<Job, View, HandingOut>;

pub(crate) type Pass = crossbeam_queue::Pass<Job, View>;

/// What was put in comes out once.
pub(crate) struct HandingOut;

impl Protocol<Job, View> for HandingOut {
    ghost use Rattle.std.specs.Prelude.{[]};
    ghost use Rattle.ecp_rebuild.specs.Rules.{view_of, every_part, HandsOut};

    ghost holds = { HandsOut };

    ghost first = { view_of every_part [] [] };
}

/// A push of the next job, by the pass that has every part.
pub(crate) struct Put;

impl Outcome<Job, View> for Put {
    ghost then = { λ v x w. w ≡ view_of v.parts (v.jobs ++ x ∷ []) v.taken };
}

impl Lesson<Job, View> for Put {
    ghost fact = { λ v items. Unit {0} };
}

/// A pop. Where the queue is empty, the pass that has every part learns that it took all jobs.
pub(crate) struct Take;

impl Outcome<Job, View> for Take {
    ghost then = { Takes };
}

impl Lesson<Job, View> for Take {
    ghost fact = { TookAll };
}

/// A pass for one more worker.
pub(crate) struct Share;

impl Split<View> for Share {
    ghost left = { λ v. view_of (v.parts - 1) v.jobs v.taken };

    ghost right = { λ v. view_of 1 v.jobs [] };
}

/// What another worker took is added to what this one took.
pub(crate) struct Gather;

impl Join<View> for Gather {
    ghost both = { λ v w. view_of (v.parts + w.parts) v.jobs (v.taken ++ w.taken) };

    ghost spent = { view_of 0 [] [] };
}
