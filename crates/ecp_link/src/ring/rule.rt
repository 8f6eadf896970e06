use crate::ring::view::View;
use atomic_table::TableRule;

/// The rule of a ring: who has the turn of which place, and what the places hold.
pub(crate) struct InTurn;

impl<T> TableRule<Option<T>, View<T>, ()> for InTurn {
    ghost use Rattle.ecp_link.specs.Rings.{IsRing, fresh};

    ghost holds = { λ _ s. IsRing s.words s.homes s.views };

    ghost first = { λ _. fresh };
}
