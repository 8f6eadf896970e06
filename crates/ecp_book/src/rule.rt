use crate::view::View;
use atomic_table::TableRule;

/// The rule of a book, whose table is told the number of logs.
pub(crate) struct Lengths;

impl TableRule<(), View, u64> for Lengths {
    ghost use Rattle.ecp_book.specs.Rules.{IsKept, opener_of};

    ghost holds = { λ logs s. IsKept logs s.words s.views };

    ghost first = { λ logs. opener_of 0 };
}
