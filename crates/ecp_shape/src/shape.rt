/// The sizes that a service is opened with.
#[derive(Clone, Copy, Debug, PartialEq, Eq)]
pub struct Shape {
    /// How many rows a stripe has: k + 1 to [`MAX_ROWS`](crate::limits::MAX_ROWS).
    pub n: u32,
    /// How many of them are data: 1 to n - 1.
    pub k: u32,
    /// How many nodes there are: n to [`MAX_NODES`](crate::limits::MAX_NODES).
    pub nodes: u32,
    /// How many bytes a block has: 1 to [`MAX_BLOCK`](crate::limits::MAX_BLOCK).
    pub block: u32,
}
