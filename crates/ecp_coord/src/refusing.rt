//! How an event of a put ends the call, or leaves it as it is.
ghost use Rattle.std.specs.Prelude.{◌≡◌, ◌<◌, length, MatchOption, ⊤};
ghost use Rattle.ecp_shape.specs.declared.limits.TheConstants.{MAX_SESSIONS};
ghost use Rattle.ecp_entry.specs.Told.{history_of};
ghost use Rattle.ecp_history.specs.Legal.{MayFollow};
ghost use Rattle.ecp_coord.specs.Calls.{IsOpen, ended};
ghost use Rattle.ecp_coord.specs.Numbers.{open_numbers};
ghost use Rattle.ecp_coord.specs.Refusals.{Refuses, SaysWhy};

use crate::Pass;
use crate::coord::Coord;
use crate::ending::end_call;
use ecp_book::{Book, Names};
use ecp_entry::{Act, Deed};

impl<N: Names> Coord<N> {
    /// Ends the pass's open call, which asks for `deed`, with the act that says why nothing is stored, where there is one.
    /// Else it notes nothing.
    pub(crate) fn end_where(
        &mut self,
        book: &Book<N>,
        pass: &mut Pass<N>,
        deed: Deed,
        said: Option<Act>,
    )
        requires open { IsOpen pass.old deed }
        requires says { MatchOption said ⊤ SaysWhy }
        requires free { MatchOption said ⊤ (λ _. open_numbers N.shape pass.old.notes ≡ 0) }
        requires follows { pass.old.caller < MAX_SESSIONS → MatchOption said ⊤ (λ what.
            MayFollow N.shape N.told (history_of self.old.sequence.history) (ended pass.old deed (length self.old.sequence.history) what)) }
        ensures { Refuses N.shape N.told self.old pass.old deed said self.new pass.new }
    {
        self.sequencer.meet(book, pass);
        match said {
            Some(act) => end_call(&mut self.sequencer, book, pass, deed, act),
            None => self.sequencer.renew(book, pass),
        }
    }
}
