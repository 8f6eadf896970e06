ghost use Rattle.std.specs.Prelude.{◌≡◌, ℕ, ◌+◌, ◌-◌, ◌^◌, ◌<◌, ◌≤◌, [], ◌∷◌, ◌++◌, length};
ghost use Rattle.ecp_sequencer.specs.Notes.{note, room_of};
ghost use Rattle.ecp_sequencer.specs.Facts.{is_open, room_noted};
ghost use Rattle.ecp_sequencer.specs.Passes.{with_note};

use crate::hand::Hand;
use crate::limits::ROOM;
use crate::note::Note;
use crate::tie::Tie;
use ecp_book::{Book, Entered, Names};
use std::marker::Model;

/// A hand, as the sequencer has it: its number, the sequencer's end of the tie, its room, and whether its call is open.
#[derive(Drop)]
pub(crate) struct Desk<N: Names> {
    pub(crate) number: u8,
    pub(crate) room: u32,
    pub(crate) opened: bool,
    pub(crate) tie: Tie<N>,
}

impl<N: Names> Model for Desk<N> {
    ghost use Rattle.std.specs.Prelude.{◌≡◌};
    ghost use Rattle.ecp_sequencer.specs.Facts.{is_open};
    ghost use Rattle.ecp_sequencer.specs.Sequencers.{DeskState, IsDesk, desk_seen};

    ghost Value = { DeskState };

    ghost view = { λ d. desk_seen d.number d.tie.items d.room };

    ghost invariant = { λ d. IsDesk N.shape.nodes d.tie.speaks d.tie.hears (desk_seen d.number d.tie.items d.room) × (d.opened ≡ is_open d.tie.items) };
}

impl<N: Names> Desk<N> {
    /// For how many more entries and notes the hand has room.
    pub(crate) fn room(&self) -> u32
        ensures room { result ≡ self.now.room }
        ensures counted { self.now.room ≡ room_noted self.now.notes }
        ensures most { self.now.room ≤ ROOM }
        ensures places { length self.now.notes + self.now.room < 2 ^ 32 - 1 }
    {
        self.room
    }

    /// Whether the hand has an open call.
    pub(crate) fn is_open(&self) -> bool
        ensures { result ≡ is_open self.now.notes }
    {
        self.opened
    }

    /// How many notes it heard.
    pub(crate) fn len(&self) -> u32
        ensures { result ≡ length self.now.notes }
    {
        self.tie.len()
    }

    /// Shows that the hand noted what the desk heard.
    pub(crate) fn meet(&mut self, book: &Book<N>, hand: &mut Hand<N>)
        requires { self.old.hand ≡ hand.old.hand }
        ensures same { self.old.notes ≡ hand.old.notes }
        ensures kept { self.new ≡ self.old }
        ensures hand { hand.new ≡ hand.old }
    {
        self.tie.meet(book, &mut hand.tie);
    }

    /// Notes something of a hand, which has this room from then on, and then says whether its call is open.
    pub(crate) fn note<E: Entered>(
        &mut self,
        book: &Book<N>,
        hand: &mut Hand<N>,
        what: &E,
        point: u32,
        room: u32,
        opened: bool,
    )
        requires hand { self.old.hand ≡ hand.old.hand }
        requires same { self.old.notes ≡ hand.old.notes }
        requires most { room ≤ ROOM }
        requires places { length self.old.notes + 1 + room < 2 ^ 32 - 1 }
        requires opened { opened ≡ is_open (self.old.notes ++ note point room (E.item what.now) ∷ []) }
        ensures noted { self.new ≡ record { hand = self.old.hand; notes = self.old.notes ++ note point room (E.item what.now) ∷ []; room = room } }
        ensures hand { hand.new ≡ with_note hand.old (note point room (E.item what.now)) }
    {
        self.tie
            .note(book, &mut hand.tie, &Note { point, room, what });
        self.room = room;
        self.opened = opened;
    }
}
