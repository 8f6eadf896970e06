//! The event that ends a call by its parts.
ghost use Rattle.std.specs.Prelude.{◌≡◌};
ghost use Rattle.ecp_entry.specs.declared.deed.Deed.{Deed};
ghost use Rattle.ecp_sequencer.specs.Passes.{IsWhole};
ghost use Rattle.ecp_coord.specs.Calls.{Ends, IsOpen};
ghost use Rattle.ecp_coord.specs.Closing.{MayClose};

use crate::Pass;
use crate::coord::Coord;
use crate::giving_up::end_with;
use ecp_book::{Book, Names};
use ecp_entry::{Act, Part};

impl<N: Names> Coord<N> {
    /// Ends the pass's open call, which reads a file whole, with the act that its parts give, which all stand in the pass's
    /// front: [`Act::Whole`] where each block of the file was read, or [`Act::Broken`] with the first that was not. Takes no
    /// memory.
    pub fn close_call(&mut self, book: &Book<N>, pass: &mut Pass<N>, act: Act)
        requires closes { MayClose pass.old act }
        ensures event { (asked : Deed) → IsOpen pass.old asked →
            Ends N.shape N.told self.old.sequence pass.old asked act self.new.sequence pass.new }
        ensures rest { self.new ≡ record self.old { sequence = self.new.sequence } }
        ensures whole { IsWhole pass.new }
    {
        self.sequencer.meet(book, pass);
        let point = self.sequencer.len();
        end_with(&mut self.sequencer, book, pass, Part::End, point, act, &[]);
    }
}
