//! The event that ends a part of a call with the bytes of its block.
ghost use Rattle.std.specs.Prelude.{◌≡◌};
ghost use Rattle.ecp_history.specs.Fronts.{IsBlockIn};
ghost use Rattle.ecp_sequencer.specs.Passes.{IsWhole};
ghost use Rattle.ecp_coord.specs.Plans.{Finishes, IsPlanned};

use crate::Pass;
use crate::coord::Coord;
use crate::giving_up::end_with;
use ecp_book::{Book, Names};
use ecp_entry::Act;
use ecp_plan::Plan;

impl<N: Names> Coord<N> {
    /// Ends the plan's part of the pass's open call with the bytes of the block that the plan makes, as of its point: they are
    /// the block's in the table of the plan's front, whatever came after. The end of a read or a sum ends the call; after a
    /// part of a `cat` it is open still. Takes no memory, and copies no byte.
    pub fn finish(&mut self, book: &Book<N>, pass: &mut Pass<N>, plan: &mut Plan<N>, bytes: &[u8])
        requires planned { IsPlanned N.shape N.told pass.old plan.old }
        requires bytes { IsBlockIn N.shape N.told plan.old.front.items plan.old.stripe plan.old.row bytes.now }
        ensures done { Finishes N.shape N.told self.old pass.old plan.old bytes.now self.new pass.new }
        ensures plan { plan.new ≡ plan.old }
        ensures whole { IsWhole pass.new }
    {
        self.sequencer.meet(book, pass);
        self.sequencer.meet_front(book, &mut plan.front);
        end_with(
            &mut self.sequencer,
            book,
            pass,
            plan.part,
            plan.point,
            Act::Data,
            bytes,
        );
    }
}
