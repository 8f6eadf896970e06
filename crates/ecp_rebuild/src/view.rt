use crate::job::Job;
use std::collections::LinkedList;

/// What a pass of the queue knows: its parts of the right to know the whole, all jobs of the run, and those that it
/// took. No value of it is made.
pub(crate) struct View {
    pub(crate) parts: u64,
    pub(crate) jobs: LinkedList<Job>,
    pub(crate) taken: LinkedList<Job>,
}
