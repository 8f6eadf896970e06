use thiserror::Error;

/// A source, a sink or a store failed. Its own count of faults rose in the call that answers this.
#[derive(Clone, Copy, Debug, PartialEq, Eq, Error)]
#[error("failed")]
pub struct Failed;
