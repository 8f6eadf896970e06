use super::view::View;
use atomic_table::TableRule;

/// The rule of a cancel word: it is 0, or a reason that one seat wrote, and each seat knows 0 or the word.
pub(crate) struct SetOnce;

impl TableRule<(), View, ()> for SetOnce {
    ghost use Rattle.std.specs.Prelude.{false, []};
    ghost use Rattle.ecp_slice.specs.CancelWords.{IsSetOnce, view_of};

    ghost holds = { λ _ s. IsSetOnce s.words s.views };

    ghost first = { λ _. view_of 0 false [] };
}
