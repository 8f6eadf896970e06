use ecp_book::Names;
use ecp_node::Receipt;

/// One helper of a plan: a live row, and the node that gives it.
#[derive(Drop)]
pub struct Hop<N: Names> {
    /// The row.
    pub row: u8,
    /// The node that it is live on.
    pub node: u8,
    /// The incarnation of the node that has it.
    pub inc: u32,
    /// What its bytes are times in the sum: the interpolation weight of the row among those of the plan.
    pub weight: u8,
    /// The receipt of the block, from which its bytes are read.
    pub receipt: Receipt<N>,
}
