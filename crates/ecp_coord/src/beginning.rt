//! The event that begins a call.
ghost use Rattle.std.specs.Prelude.{◌≡◌, ◌+◌, ◌-◌, ◌^◌, [], min, OnOk, OnErr};
ghost use Rattle.ecp_sequencer.specs.Passes.{IsWhole};
ghost use Rattle.ecp_sequencer.specs.Steps.{Event};
ghost use Rattle.ecp_coord.specs.Calls.{Begins, IsFresh, IsOpen};
ghost use Rattle.ecp_coord.specs.Coords.{with_room};

use crate::coord::Coord;
use crate::{NoMemory, Pass};
use ecp_book::{Book, Names};
use ecp_catalog::Catalog;
use ecp_entry::Deed;

impl<N: Names> Coord<N> {
    /// Begins the caller's next call, by its own pass with all its spare hands, and takes the room that it needs: for its entries, and for the loss of a node where
    /// it asks for one. A call that was open is open no more.
    ///
    /// Want of memory is the only error. It notes nothing and leaves the catalog's answers, but takes the call's number
    /// all the same, unless there is no greater number.
    pub fn begin(&mut self, book: &Book<N>, pass: &mut Pass<N>, deed: Deed) -> Result<(), NoMemory>
        requires { IsWhole pass.old }
        ensures ok { OnOk result (Begins N.shape N.told self.old.sequence pass.old deed self.new.sequence pass.new) }
        ensures open { OnOk result (IsOpen pass.new deed) }
        ensures fresh { OnOk result (IsFresh pass.new deed) }
        ensures err { OnErr result (Event N.shape N.told self.old.sequence pass.old [] [] self.new.sequence pass.new) }
        ensures counted { OnOk result (pass.new.calls ≡ pass.old.calls + 1) }
        ensures calls { pass.new.calls ≡ min (pass.old.calls + 1) (2 ^ 32 - 1) }
        ensures rest { self.new ≡ record self.old { sequence = self.new.sequence } }
        ensures whole { IsWhole pass.new }
    {
        self.sequencer.meet(book, pass);
        if let Err(NoMemory) = make_room(&mut self.catalog, &deed, self.hands) {
            self.sequencer.pass_over(book, pass);
            return Err(NoMemory);
        }
        self.sequencer.begin(book, pass, deed)
    }
}

// Takes room in the catalog for what a call does. A refusal changes nothing.
fn make_room<N: Names>(catalog: &mut Catalog<N>, deed: &Deed, hands: u32) -> Result<(), NoMemory>
    ensures ok { OnOk result (catalog.new ≡ with_room deed.now hands catalog.old) }
    ensures err { OnErr result (catalog.new ≡ catalog.old) }
{
    let Deed::Lose { node } = *deed else {
        return Ok(());
    };
    if node >= catalog.shape().nodes {
        return Ok(());
    }
    catalog.reserve_loss(node, hands)
}
