//! The event that says the sizes of a file, and how many of its blocks are live.
ghost use Rattle.std.specs.Prelude.{◌≡◌, ◌+◌, ◌≤◌, Bool, IfSome, List, length, sum_by};
ghost use Rattle.std.specs.List.{range_with_len};
ghost use Rattle.ecp_shape.specs.declared.limits.TheConstants.{MAX_NAME};
ghost use Rattle.ecp_shape.specs.declared.shape.Shape.{Shape};
ghost use Rattle.ecp_entry.specs.declared.deed.Deed.TheVariants.{Stat};
ghost use Rattle.ecp_entry.specs.declared.entry.Entry.{Entry};
ghost use Rattle.ecp_history.specs.Fronts.{told_table};
ghost use Rattle.ecp_history.specs.table.Steps.{table_of};
ghost use Rattle.ecp_history.specs.table.Tables.{file_of, live_rows};
ghost use Rattle.ecp_catalog.specs.declared.limits.TheConstants.{END_OF_STRIPES};
ghost use Rattle.ecp_catalog.specs.Catalogs.{plain};
ghost use Rattle.ecp_catalog.specs.Outline.{IsOutline};
ghost use Rattle.ecp_sequencer.specs.Passes.{IsWhole};
ghost use Rattle.ecp_coord.specs.Calls.{Ends, IsOpen};
ghost use Rattle.ecp_coord.specs.Stating.{HasNumbers, found_by_stating};

use crate::Pass;
use crate::asking::live_count;
use crate::coord::Coord;
use crate::ending::end_call;
use ecp_book::{Book, Names};
use ecp_catalog::Catalog;
use ecp_entry::{Act, Deed, Name};

impl<N: Names> Coord<N> {
    /// Says the sizes of the file with this name, and how many of its blocks are live. Ends the pass's open call, which asks
    /// for this. The name has 1 to 64 bytes.
    ///
    /// The answer is [`Act::Stat`], with the file's bytes, its blocks, and the live ones over all rows of all its stripes,
    /// or [`Act::NoSuchFile`] where no file has the name. Takes no memory.
    pub fn stat(&mut self, book: &Book<N>, pass: &mut Pass<N>, name: &str) -> Act
        requires named { (1 ≤ length name.now) × (length name.now ≤ MAX_NAME) }
        requires open { IsOpen pass.old (Stat name.now) }
        ensures event { Ends N.shape N.told self.old.sequence pass.old (Stat name.now) result self.new.sequence pass.new }
        ensures answer { result ≡ found_by_stating N.shape (told_table N.shape self.old.sequence.history) name.now }
        ensures rest { self.new ≡ record self.old { sequence = self.new.sequence } }
        ensures whole { IsWhole pass.new }
    {
        let name = Name::new(name);
        self.sequencer.meet(book, pass);
        let found = find(&self.catalog, &name);
        end_call(&mut self.sequencer, book, pass, Deed::Stat { name }, found);
        found
    }
}

// What is found by stating a file: the answer by the table of which the catalog is the outline.
fn find<N: Names>(catalog: &Catalog<N>, name: &Name) -> Act
    requires { IfSome (file_of (plain catalog.now) name.now) HasNumbers }
    ensures { (shape : Shape) (told : Bool) (history : List Entry) → IsOutline shape told catalog.now history →
        result ≡ found_by_stating shape (table_of shape history) name.now }
{
    match catalog.file(name) {
        Some(file) => Act::Stat {
            len: file.len,
            count: catalog.block_count(&file),
            live: live_blocks(catalog, file.first, file.stripes),
        },
        None => Act::NoSuchFile,
    }
}

// How many blocks are live over all rows of these stripes.
fn live_blocks<N: Names>(catalog: &Catalog<N>, first: u32, stripes: u32) -> u32
    requires { first + stripes ≤ END_OF_STRIPES }
    ensures { (shape : Shape) (told : Bool) (history : List Entry) → IsOutline shape told catalog.now history →
        result ≡ sum_by (live_rows (table_of shape history)) (range_with_len first stripes) }
{
    let mut live = 0;
    for stripe in first..first + stripes {
        live += live_count(catalog, stripe);
    }
    live
}
