/// The settings of a run.
#[derive(Clone, Copy, Debug, PartialEq, Eq)]
pub struct Head {
    /// Rows of data in a stripe: 1 to n - 1.
    pub k: u32,
    /// Rows of a stripe: k + 1 to [`MAX_ROWS`](ecp_shape::limits::MAX_ROWS).
    pub n: u32,
    /// Nodes: n to [`MAX_NODES`](ecp_shape::limits::MAX_NODES).
    pub nodes: u32,
    /// Bytes of a block: 1 to [`MAX_BLOCK`](ecp_shape::limits::MAX_BLOCK).
    pub block: u32,
    /// Bytes of a slice: 1 to the block's.
    pub slice: u32,
    /// Slices in flight on one link: 1 to [`MAX_WINDOW`](ecp_shape::limits::MAX_WINDOW).
    pub window: u32,
    /// Threads that turn the helpers beside the sessions' own: 0 to [`MAX_WORKERS`](ecp_shape::limits::MAX_WORKERS).
    pub workers: u32,
    /// Whether the slices of a rebuilt block go round the helpers in turn.
    pub cyclic: bool,
}
