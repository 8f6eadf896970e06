use crate::outcome::Outcome;

/// What comes back once every task is done.
#[derive(Drop)]
pub struct Done<H> {
    /// The hands, in the order in which they were given.
    pub hands: Vec<H>,
    /// The outcomes, in the order of the tasks.
    pub outcomes: Vec<Outcome>,
}
