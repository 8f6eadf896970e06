//! The end of a coordinator, and what is known then.
ghost use Rattle.std.specs.Prelude.{◌≡◌, ◌<◌};
ghost use Rattle.ecp_node.specs.Nodes.{start_of};
ghost use Rattle.ecp_sequencer.specs.Closed.{Closed};
ghost use Rattle.ecp_entry.specs.Told.{history_of};
ghost use Rattle.ecp_history.specs.Files.{StripesBounded};
ghost use Rattle.ecp_coord.specs.Budget.{IsPaid};
ghost use Rattle.ecp_coord.specs.Numbers.{AllEnded, calls_ended};

use crate::Pass;
use crate::coord::Coord;
use ecp_book::{Book, Names};
use ecp_history::Journal;
use ecp_node::Node;
use ecp_store::Store;

impl<N: Names> Coord<N> {
    /// Meets a node, and shows that each entry that tells of a failure of its store has a failure of its own in the node's
    /// log. Takes no memory, and changes nothing.
    pub fn settle<S: Store>(&mut self, book: &Book<N>, node: &mut Node<N, S>)
        requires { node.old.number < N.shape.nodes }
        ensures paid { IsPaid self.old.sequence.history (start_of N.stores node.old.number) node.old }
        ensures same { self.new ≡ self.old }
        ensures node { node.new ≡ node.old }
    {
        let number = usize::from(node.number());
        node.meet(book, &mut self.nodes[number]);
    }

    /// Meets each pass for the last time, and gives the journal. Takes no memory, and appends nothing.
    ///
    /// A pass that is not handed in is not spoken of; the history is legal all the same. Where all passes are handed in, and
    /// each call that they counted has its end, no more stripe numbers are used up than the puts ask for: each its stripes,
    /// once and once more for each loss from where it began to its end.
    pub fn close(self, book: &Book<N>, passes: Vec<Pass<N>>) -> Journal
        ensures closed { Closed N.shape N.told N.callers N.spare_hands self.sequence result.lines passes.items }
        ensures numbers { AllEnded N.callers N.spare_hands (history_of self.sequence.history) passes.items → StripesBounded (calls_ended N.shape (history_of self.sequence.history)) (history_of self.sequence.history) }
    {
        let Coord { sequencer, .. } = self;
        sequencer.close(book, passes)
    }
}
