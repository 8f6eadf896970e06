//! The event that opens a file which is read whole.
ghost use Rattle.std.specs.Prelude.{◌≡◌, ◌≤◌, Bool, List, length};
ghost use Rattle.ecp_shape.specs.declared.limits.TheConstants.{MAX_NAME};
ghost use Rattle.ecp_shape.specs.declared.shape.Shape.{Shape};
ghost use Rattle.ecp_entry.specs.declared.deed.Deed.TheVariants.{Cat};
ghost use Rattle.ecp_entry.specs.declared.entry.Entry.{Entry};
ghost use Rattle.ecp_entry.specs.Told.{history_of};
ghost use Rattle.ecp_history.specs.Fronts.{told_table};
ghost use Rattle.ecp_history.specs.Legal.{MayFollow};
ghost use Rattle.ecp_history.specs.table.Steps.{table_of};
ghost use Rattle.ecp_catalog.specs.Outline.{IsOutline};
ghost use Rattle.ecp_sequencer.specs.Sequencers.{Agrees};
ghost use Rattle.ecp_sequencer.specs.Passes.{IsWhole};
ghost use Rattle.ecp_coord.specs.Calls.{IsFresh, IsOpen};
ghost use Rattle.ecp_coord.specs.Opening.{Opens, found_by_opening, opening};

use crate::coord::Coord;
use crate::ending::end_call;
use crate::entering::enter_part;
use crate::{Opened, Pass};
use ecp_book::{Book, Names};
use ecp_catalog::Catalog;
use ecp_entry::{Act, Deed, Name};
use ecp_sequencer::Sequencer;

impl<N: Names> Coord<N> {
    /// Opens the file that the pass's open call reads whole, of which nothing was noted yet. The name has 1 to 64 bytes.
    ///
    /// Where a file has the name, the answer is its bytes, its blocks and its first stripe, which part 0 of the call says in
    /// the history. The call stays open, for the parts of its blocks and for its end. Else the answer is
    /// [`Opened::NoSuchFile`], which ends the call. Takes no memory.
    pub fn open_cat(&mut self, book: &Book<N>, pass: &mut Pass<N>, name: &str) -> Opened
        requires named { (1 ≤ length name.now) × (length name.now ≤ MAX_NAME) }
        requires fresh { IsFresh pass.old (Cat name.now) }
        ensures event { Opens N.shape N.told self.old.sequence pass.old name.now result self.new.sequence pass.new }
        ensures answer { result ≡ found_by_opening N.shape (told_table N.shape self.old.sequence.history) name.now }
        ensures rest { self.new ≡ record self.old { sequence = self.new.sequence } }
        ensures whole { IsWhole pass.new }
    {
        let name = Name::new(name);
        self.sequencer.meet(book, pass);
        let found = find(&self.catalog, &name);
        enter(&mut self.sequencer, book, pass, name, found);
        found
    }
}

// What is found by opening a file: the answer by the table of which the catalog is the outline.
fn find<N: Names>(catalog: &Catalog<N>, name: &Name) -> Opened
    ensures { (shape : Shape) (told : Bool) (history : List Entry) → IsOutline shape told catalog.now history →
        result ≡ found_by_opening shape (table_of shape history) name.now }
{
    match catalog.file(name) {
        Some(file) => Opened::Opened {
            len: file.len,
            count: catalog.block_count(&file),
            first: file.first,
        },
        None => Opened::NoSuchFile,
    }
}

// Enters what was found.
fn enter<N: Names>(
    sequencer: &mut Sequencer<N>,
    book: &Book<N>,
    pass: &mut Pass<N>,
    name: Name,
    found: Opened,
)
    requires agree { Agrees sequencer.old pass.old }
    requires open { IsOpen pass.old (Cat name) }
    requires follows { MayFollow N.shape N.told (history_of sequencer.old.history) (opening pass.old name (length sequencer.old.history) found) }
    ensures { Opens N.shape N.told sequencer.old pass.old name found sequencer.new pass.new }
{
    let deed = Deed::Cat { name };
    match found {
        Opened::Opened { len, count, first } => {
            let act = Act::Opened { len, count, first };
            enter_part(sequencer, book, pass, deed, 0, act);
        }
        Opened::NoSuchFile => end_call(sequencer, book, pass, deed, Act::NoSuchFile),
    }
}
