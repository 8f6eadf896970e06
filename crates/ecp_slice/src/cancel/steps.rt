//! The kinds of step on a cancel word, each by the seat of one handle.
ghost use Rattle.std.specs.Prelude.{◌≡◌, false, []};
ghost use Rattle.ecp_slice.specs.Cancels.{Finds};
ghost use Rattle.ecp_slice.specs.CancelWords.{view_of, loaded, exchanged};

use super::view::View;
use atomic_table::{Play, Split};

/// A load, after which the seat knows the word.
pub(crate) struct Loads;

impl Play<(), View> for Loads {
    ghost then = { λ s v n w. (w ≡ (loaded v.0 n, v.1)) × Finds v.0.known n };
}

/// An exchange of 0 for a reason, after which the seat knows the word as it then stands.
pub(crate) struct Exchanges;

impl Play<(), View> for Exchanges {
    ghost then = { λ s v n w. (w ≡ (exchanged v.0 s.second n, v.1)) × Finds v.0.known n };
}

/// A split that makes a seat which knows the same and has not taken a step.
pub(crate) struct Copies;

impl Split<View> for Copies {
    ghost left = { λ v. v };

    ghost right = { λ v. view_of v.known false [] };
}
