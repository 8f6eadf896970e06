/// Where a block that is made is to be kept.
#[derive(Clone, Copy, Debug, PartialEq, Eq)]
pub struct Target {
    /// The node.
    pub node: u8,
    /// Its incarnation at the point of the plan.
    pub inc: u32,
}
