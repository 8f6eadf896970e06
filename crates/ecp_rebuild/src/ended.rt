use crate::job::Job;
use crate::outcome::Outcome;

/// A job that was done, with its outcome.
#[derive(Clone, Copy)]
pub(crate) struct Ended {
    pub(crate) job: Job,
    pub(crate) outcome: Outcome,
}
