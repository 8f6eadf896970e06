ghost use Rattle.std.specs.Prelude.{◌≡◌};
ghost use Rattle.ecp_store.specs.declared.keep_fault.KeepFault.TheVariants.{Failed, NoMemory};

use std::alloc::{AllocError, AllocFailed};
use thiserror::Error;

/// Why a store did not keep a block. It holds what it held.
#[derive(Clone, Copy, Debug, PartialEq, Eq, Error)]
pub enum KeepFault {
    /// The store failed, and its count of faults rose.
    #[error("failed")]
    Failed,
    /// Memory ran out.
    #[error("no memory")]
    NoMemory,
}

impl From<crate::Failed> for KeepFault {
    ghost from_gives = { λ _ error. error ≡ Failed };

    fn from(_error: crate::Failed) -> KeepFault {
        KeepFault::Failed
    }
}

impl From<AllocError> for KeepFault {
    ghost from_gives = { λ _ error. error ≡ NoMemory };

    fn from(_error: AllocError) -> KeepFault {
        KeepFault::NoMemory
    }
}

impl<T: Drop> From<AllocFailed<T>> for KeepFault {
    ghost from_gives = { λ _ error. error ≡ NoMemory };

    fn from(_error: AllocFailed<T>) -> KeepFault {
        KeepFault::NoMemory
    }
}
