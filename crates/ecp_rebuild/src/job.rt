use ecp_history::Task;

/// A task with its place among the tasks of the run.
#[derive(Clone, Copy)]
pub(crate) struct Job {
    pub(crate) number: usize,
    pub(crate) task: Task,
}
