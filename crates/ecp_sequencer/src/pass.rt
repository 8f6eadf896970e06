ghost use Rattle.std.specs.Prelude.{◌≡◌, ◌<◌, length};
ghost use mathlib.Core.List.{IsPrefix};
ghost use Rattle.ecp_book.specs.Logs.{history_log};
ghost use Rattle.ecp_entry.specs.Told.{items_by};
ghost use Rattle.ecp_sequencer.specs.Facts.{entries_noted};

use crate::hand::Hand;
use ecp_book::{Book, Names, Tag};
use ecp_entry::Deed;
use ecp_shape::limits::MAX_SESSIONS;
use std::marker::Model;

/// The token of a caller: how many calls it made, a front, and its hands.
///
/// A front is a beginning of the history. The caller's own hand makes its calls; the spare ones are held for workers, and
/// each can be lent as a branch, which is a pass of that hand. The number of the open call, and what it asks for, are kept
/// too. A pass may go to another thread.
#[derive(Drop)]
pub struct Pass<N: Names> {
    pub(crate) caller: u8,
    pub(crate) calls: u32,
    pub(crate) number: u32,
    pub(crate) deed: Option<Deed>,
    pub(crate) front: Tag<N>,
    pub(crate) hand: Hand<N>,
    pub(crate) spare: Vec<Hand<N>>,
}

impl<N: Names> Model for Pass<N> {
    ghost use Rattle.std.specs.Prelude.{◌≡◌, ◌≤◌, vec_capacity};
    ghost use Rattle.ecp_sequencer.specs.Hands.{own_hand};
    ghost use Rattle.ecp_sequencer.specs.Passes.{IsLastCall, IsPass, PassState, call_seen, pass_seen};

    ghost Value = { PassState };

    ghost view = { λ p. pass_seen N.spare_hands p.caller p.calls p.front.items p.hand p.spare.items };

    ghost invariant = { λ p. IsPass N.callers N.spare_hands p.front.log (pass_seen N.spare_hands p.caller p.calls p.front.items p.hand p.spare.items)
        × IsLastCall p.hand.notes (call_seen p.number p.deed)
        × (p.hand.hand ≡ own_hand N.spare_hands p.caller → N.spare_hands ≤ vec_capacity p.spare) };
}

impl<N: Names> Pass<N> {
    ghost use Rattle.ecp_sequencer.specs.Passes.{AsksFor, longer};

    /// The number of its caller, from 0.
    pub fn caller(&self) -> u8
        ensures caller { result ≡ self.now.caller }
        ensures session { self.now.caller < MAX_SESSIONS }
    {
        self.caller
    }

    /// The number of the hand that acts by it: its caller's own, or the spare one that was lent.
    pub fn hand(&self) -> u8
        ensures { result ≡ self.now.hand }
    {
        self.hand.number()
    }

    /// How many calls its caller began: the number of the next one.
    pub fn calls(&self) -> u32
        ensures { result ≡ self.now.calls }
    {
        self.calls
    }

    /// What the open call asks for, where there is one.
    pub fn deed(&self) -> Option<Deed>
        ensures { AsksFor self.now.notes result }
    {
        self.deed
    }

    /// A copy of the front.
    pub fn front(&mut self, book: &Book<N>) -> Tag<N>
        ensures front { result ≡ record { log = history_log; items = self.old.front } }
        ensures kept { self.new ≡ self.old }
    {
        book.copy(&mut self.front)
    }

    /// Makes the front the longer of its own and the given one, which stays as it is. Takes no memory, and never waits.
    pub fn raise(&mut self, book: &Book<N>, front: &mut Tag<N>)
        requires { front.old.log ≡ history_log }
        ensures raised { self.new ≡ record self.old { front = longer self.old.front front.old.items } }
        ensures extends { IsPrefix self.old.front self.new.front }
        ensures reaches { IsPrefix front.old.items self.new.front }
        ensures noted { IsPrefix (entries_noted self.old.notes) (items_by self.old.hand self.old.front) }
        ensures front { front.new ≡ front.old }
    {
        book.meet_tags(&mut self.front, front);
        if self.front.len() < front.len() {
            let old = std::mem::replace(&mut self.front, book.copy(front));
            book.end_tag(old);
        }
    }
}
