use thiserror::Error;

/// Why a node did not keep a block. Nothing is kept.
#[derive(Clone, Copy, Debug, PartialEq, Eq, Error)]
pub enum NodeKeep {
    /// The block is for another incarnation than the node's, which this is.
    #[error("the node is in incarnation {0}")]
    Gone(u32),
    /// The store failed.
    #[error("failed")]
    Failed,
    /// The node's log is at its end.
    #[error("the log is full")]
    Full,
    /// Memory ran out.
    #[error("no memory")]
    NoMemory,
}
