ghost use Rattle.std.specs.Prelude.{◌≡◌, ◌^◌, ◌<◌, [], length};
ghost use mathlib.Core.List.{IsPrefix};
ghost use Rattle.ecp_shape.specs.declared.limits.TheConstants.{MAX_SESSIONS};
ghost use Rattle.ecp_book.specs.Logs.{history_log};
ghost use Rattle.ecp_sequencer.specs.Hands.{hands_of, IsHandOf};
ghost use Rattle.ecp_sequencer.specs.Histories.{IsKept};
ghost use Rattle.ecp_sequencer.specs.Sequencers.{Agrees};
ghost use Rattle.ecp_sequencer.specs.Steps.{Event};

use crate::desk::Desk;
use crate::pass::Pass;
use ecp_book::{Book, Keeper, Names, Tag};
use ecp_history::Journal;
use std::marker::Model;
use std::mem;

/// The one place that adds to the history.
///
/// It has the history's log, the journal with the lines of it, and one end of the tie to each hand. It knows no table and
/// no node: that an entry may follow is asked of the caller.
///
/// Each event begins with [`Sequencer::meet`], under one hold of the lock: what it teaches, the other calls ask for and
/// leave. After each the pass's front is the whole history.
#[derive(Drop)]
pub struct Sequencer<N: Names> {
    pub(crate) keeper: Keeper<N>,
    pub(crate) journal: Journal,
    pub(crate) desks: Vec<Desk<N>>,
    pub(crate) taken: u64,
}

impl<N: Names> Model for Sequencer<N> {
    ghost use Rattle.ecp_sequencer.specs.Sequencers.{SequencerState, IsSequencer, notes_of};

    ghost Value = { SequencerState };

    ghost view = { λ s. record { history = s.keeper.items; notes = notes_of s.desks.items } };

    ghost invariant = { λ s. IsSequencer N.shape N.told N.callers N.spare_hands s.keeper.log s.keeper.items s.journal s.desks.items s.taken };
}

impl<N: Names> Sequencer<N> {
    /// How many entries the history has: the position of the next one.
    pub fn len(&self) -> u32
        ensures { result ≡ length self.now.history }
    {
        self.keeper.len()
    }

    /// Shows what the pass and the sequencer both know. Changes nothing.
    pub fn meet(&mut self, book: &Book<N>, pass: &mut Pass<N>)
        ensures agree { Agrees self.old pass.old }
        ensures kept { IsKept N.shape N.told N.callers N.spare_hands self.old.history self.old.notes }
        ensures session { pass.old.caller < MAX_SESSIONS }
        ensures places { pass.old.places ≡ N.spare_hands }
        ensures own { IsHandOf N.spare_hands pass.old.caller pass.old.hand }
        ensures in_range { pass.old.hand < hands_of N.callers N.spare_hands }
        ensures short { length self.old.history < 2 ^ 32 }
        ensures same { self.new ≡ self.old }
        ensures pass { pass.new ≡ pass.old }
    {
        book.meet(&mut self.keeper, &mut pass.front);
        self.desks[usize::from(pass.hand.number())].meet(book, &mut pass.hand);
    }

    /// Shows that a front begins the history. Changes nothing.
    pub fn meet_front(&mut self, book: &Book<N>, front: &mut Tag<N>)
        requires { front.old.log ≡ history_log }
        ensures begins { IsPrefix front.old.items self.old.history }
        ensures same { self.new ≡ self.old }
        ensures front { front.new ≡ front.old }
    {
        book.meet(&mut self.keeper, front);
    }

    /// Makes the front the whole history, and notes nothing. Takes no memory.
    pub fn renew(&mut self, book: &Book<N>, pass: &mut Pass<N>)
        requires { Agrees self.old pass.old }
        ensures event { Event N.shape N.told self.old pass.old [] [] self.new pass.new }
        ensures same { self.new ≡ self.old }
        ensures pass { pass.new ≡ record pass.old { front = self.old.history } }
    {
        renew_front(book, &mut self.keeper, &mut pass.front);
    }
}

/// Makes a front the whole of its log.
pub(crate) fn renew_front<N: Names>(book: &Book<N>, keeper: &mut Keeper<N>, front: &mut Tag<N>)
    ensures front { front.new ≡ keeper.old }
    ensures kept { keeper.new ≡ keeper.old }
{
    let tag = book.tag(keeper);
    book.end_tag(mem::replace(front, tag));
}
