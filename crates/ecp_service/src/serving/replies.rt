use ecp_cluster::Answer;

/// The answers to the calls of one caller, in their order.
#[derive(Drop)]
pub(crate) struct Replies {
    pub answers: Vec<Answer>,
}
