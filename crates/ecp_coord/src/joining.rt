//! The event by which a node comes up.
ghost use Rattle.std.specs.Prelude.{◌≡◌, Bool, List};
ghost use Rattle.ecp_shape.specs.declared.shape.Shape.{Shape};
ghost use Rattle.ecp_entry.specs.declared.deed.Deed.TheVariants.{Join};
ghost use Rattle.ecp_entry.specs.declared.entry.Entry.{Entry};
ghost use Rattle.ecp_history.specs.Fronts.{told_table};
ghost use Rattle.ecp_history.specs.table.Steps.{table_of};
ghost use Rattle.ecp_catalog.specs.Outline.{IsOutline};
ghost use Rattle.ecp_sequencer.specs.Passes.{IsWhole};
ghost use Rattle.ecp_coord.specs.Calls.{Ends, IsOpen};
ghost use Rattle.ecp_coord.specs.Joining.{CanJoin, HasNext, after_joining, found_by_joining};
ghost use Rattle.ecp_coord.specs.Losing.{act_of};

use crate::coord::Coord;
use crate::ending::end_call;
use crate::{NodeAct, Pass};
use ecp_book::{Book, Names};
use ecp_catalog::Catalog;
use ecp_entry::Deed;

impl<N: Names> Coord<N> {
    /// A node that is down comes up, empty, in its next incarnation. Ends the pass's open call, which asks for this.
    ///
    /// The answer is [`NodeAct::NoSuchNode`] where there is no node of this number, [`NodeAct::NodeUp`] where it is up, and
    /// else [`NodeAct::Joined`], with its incarnation. What was lost on it stays lost. Takes no memory.
    pub fn join(&mut self, book: &Book<N>, pass: &mut Pass<N>, node: u32) -> NodeAct
        requires open { IsOpen pass.old (Join node) }
        ensures event { Ends N.shape N.told self.old.sequence pass.old (Join node) (act_of result) self.new.sequence pass.new }
        ensures answer { result ≡ found_by_joining N.shape (told_table N.shape self.old.sequence.history) node }
        ensures rest { self.new ≡ record self.old { sequence = self.new.sequence } }
        ensures whole { IsWhole pass.new }
    {
        self.sequencer.meet(book, pass);
        let found = find(&self.catalog, node);
        end_call(
            &mut self.sequencer,
            book,
            pass,
            Deed::Join { node },
            found.act(),
        );
        update(&mut self.catalog, found, node);
        found
    }
}

// What is found by joining a node: the answer by the table of which the catalog is the outline.
fn find<N: Names>(catalog: &Catalog<N>, node: u32) -> NodeAct
    requires { HasNext catalog.now node }
    ensures { (shape : Shape) (told : Bool) (history : List Entry) → IsOutline shape told catalog.now history →
        result ≡ found_by_joining shape (table_of shape history) node }
{
    if node >= catalog.shape().nodes {
        NodeAct::NoSuchNode
    } else if catalog.is_up(node) {
        NodeAct::NodeUp
    } else {
        NodeAct::Joined(catalog.inc(node) + 1)
    }
}

// Brings the catalog up to what was found.
fn update<N: Names>(catalog: &mut Catalog<N>, found: NodeAct, node: u32)
    requires { CanJoin catalog.old found node }
    ensures { catalog.new ≡ after_joining found node catalog.old }
{
    if let NodeAct::Joined(_) = found {
        catalog.join(node);
    }
}
