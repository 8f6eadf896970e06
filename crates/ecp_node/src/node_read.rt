use thiserror::Error;

/// Why a node gives no bytes of a block.
#[derive(Clone, Copy, Debug, PartialEq, Eq, Error)]
pub enum NodeRead {
    /// The block was given up. This is the node's incarnation.
    #[error("lost; the node is in incarnation {0}")]
    Lost(u32),
    /// The store failed.
    #[error("failed")]
    Failed,
}
