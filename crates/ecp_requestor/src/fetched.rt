use crate::assembled::Assembled;
use ecp_book::Names;
use ecp_plan::{Plan, Voids};

/// What a fetch hands out.
#[derive(Drop)]
pub enum Fetched<N: Names> {
    /// The block, and the plan that made it, which is the pass's plan.
    Whole(Plan<N>, Assembled<N>),
    /// The block is lost, and so few rows of its stripe are live that they do not make it. The call ended with that.
    Unrecoverable(u32),
    /// The node that the block is to be restored onto is down. It comes of rebuilds alone.
    TargetDown(u8),
    /// As many attempts came to nothing as there may be, at these positions. The call ended with that.
    Unsteady(Voids),
}
