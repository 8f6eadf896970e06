//! The end of a sequencer.
ghost use Rattle.std.specs.Prelude.{◌≡◌, ◌<◌};
ghost use Rattle.ecp_sequencer.specs.Hands.{hands_of};
ghost use Rattle.ecp_sequencer.specs.Closed.{Closed, IsHeard, IsSettled};

use crate::hand::Hand;
use crate::pass::Pass;
use crate::sequencer::Sequencer;
use ecp_book::{Book, Names};
use ecp_history::Journal;

impl<N: Names> Sequencer<N> {
    /// Meets each pass for the last time, and gives the journal. Takes no memory, and adds nothing.
    ///
    /// A pass that is not handed in is not spoken of; the history is legal all the same.
    pub fn close(mut self, book: &Book<N>, passes: Vec<Pass<N>>) -> Journal
        ensures { Closed N.shape N.told N.callers N.spare_hands self result.lines passes.items }
    {
        for pass in passes {
            self.settle(book, pass);
        }
        let Sequencer { journal, .. } = self;
        journal
    }

    // Meets all hands of a pass.
    fn settle(&mut self, book: &Book<N>, mut pass: Pass<N>)
        ensures settled { IsSettled self.old pass }
        ensures same { self.new ≡ self.old }
    {
        self.meet(book, &mut pass);
        let Pass { spare, .. } = pass;
        for mut hand in spare {
            self.meet_hand(book, &mut hand);
        }
    }

    // Meets one hand.
    pub(crate) fn meet_hand(&mut self, book: &Book<N>, hand: &mut Hand<N>)
        requires { hand.old.hand < hands_of N.callers N.spare_hands }
        ensures heard { IsHeard self.old hand.old }
        ensures same { self.new ≡ self.old }
        ensures hand { hand.new ≡ hand.old }
    {
        self.desks[usize::from(hand.number())].meet(book, hand);
    }
}
