/// A live row of a stripe, and the node that it is live on.
#[derive(Clone, Copy, Debug, PartialEq, Eq)]
pub struct LiveRow {
    /// The row.
    pub row: u8,
    /// The node.
    pub node: u8,
}
