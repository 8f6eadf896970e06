use ecp_history::Journal;

/// What is left of a service: the journal of its history, and the stores of its nodes, by their numbers.
#[derive(Drop)]
pub struct Closed<S> {
    pub journal: Journal,
    pub stores: Vec<S>,
}
