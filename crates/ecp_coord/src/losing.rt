//! The event by which a node goes down.
ghost use Rattle.std.specs.Prelude.{◌≡◌, ◌<◌, ◌≤◌, Bool, List, All, length};
ghost use Rattle.ecp_shape.specs.declared.shape.Shape.{Shape};
ghost use Rattle.ecp_entry.specs.declared.deed.Deed.TheVariants.{Lose};
ghost use Rattle.ecp_entry.specs.declared.entry.Entry.{Entry};
ghost use Rattle.ecp_history.specs.Fronts.{told_table};
ghost use Rattle.ecp_history.specs.table.Steps.{table_of};
ghost use Rattle.ecp_catalog.specs.Catalogs.{losses_of, spare_of};
ghost use Rattle.ecp_catalog.specs.Outline.{IsOutline};
ghost use Rattle.ecp_sequencer.specs.Passes.{IsWhole};
ghost use Rattle.ecp_coord.specs.Calls.{Ends, IsOpen};
ghost use Rattle.ecp_coord.specs.Losing.{CanLose, act_of, after_losing, found_by_losing};

use crate::coord::Coord;
use crate::ending::end_call;
use crate::{NodeAct, Pass};
use ecp_book::{Book, Names};
use ecp_catalog::Catalog;
use ecp_entry::Deed;

impl<N: Names> Coord<N> {
    /// A node goes down, and all its live blocks are lost. Ends the pass's open call, which asks for this.
    ///
    /// The answer is [`NodeAct::NoSuchNode`] where there is no node of this number, [`NodeAct::NodeDown`] where it is down,
    /// and else [`NodeAct::Lost`], with the number of live blocks that were on it. Takes no memory.
    pub fn lose(&mut self, book: &Book<N>, pass: &mut Pass<N>, node: u32) -> NodeAct
        requires open { IsOpen pass.old (Lose node) }
        ensures event { Ends N.shape N.told self.old.sequence pass.old (Lose node) (act_of result) self.new.sequence pass.new }
        ensures answer { result ≡ found_by_losing N.shape (told_table N.shape self.old.sequence.history) node }
        ensures rest { self.new ≡ record self.old { sequence = self.new.sequence } }
        ensures whole { IsWhole pass.new }
    {
        self.sequencer.meet(book, pass);
        let position = self.sequencer.len();
        let found = find(&self.catalog, node);
        end_call(
            &mut self.sequencer,
            book,
            pass,
            Deed::Lose { node },
            found.act(),
        );
        update(&mut self.catalog, found, node, position);
        found
    }
}

// What is found by losing a node: the answer by the table of which the catalog is the outline.
fn find<N: Names>(catalog: &Catalog<N>, node: u32) -> NodeAct
    ensures { (shape : Shape) (told : Bool) (history : List Entry) → IsOutline shape told catalog.now history →
        result ≡ found_by_losing shape (table_of shape history) node }
{
    if node >= catalog.shape().nodes {
        NodeAct::NoSuchNode
    } else if !catalog.is_up(node) {
        NodeAct::NodeDown
    } else {
        NodeAct::Lost(catalog.live_on(node))
    }
}

// Brings the catalog up to what was found.
fn update<N: Names>(catalog: &mut Catalog<N>, found: NodeAct, node: u32, position: u32)
    requires { CanLose catalog.old found node position }
    ensures { catalog.new ≡ after_losing found node position catalog.old }
{
    if let NodeAct::Lost(_) = found {
        catalog.lose(node, position);
    }
}
