//! The event that adds an entry to the history.
ghost use Rattle.std.specs.Prelude.{◌≡◌, ℕ, ◌-◌, ◌≤◌, [], ◌∷◌, false, if◌then◌else◌, length};
ghost use Rattle.ecp_entry.specs.Told.{history_of};
ghost use Rattle.ecp_history.specs.Files.{HasBytes};
ghost use Rattle.ecp_history.specs.Legal.{MayFollow};
ghost use Rattle.ecp_sequencer.specs.EntryRefs.{entry_of};
ghost use Rattle.ecp_sequencer.specs.Notes.{note, entering_of};
ghost use Rattle.ecp_sequencer.specs.Facts.{is_end, room_noted};
ghost use Rattle.ecp_sequencer.specs.Sequencers.{Agrees};
ghost use Rattle.ecp_sequencer.specs.Steps.{Event, IsOwn};

use crate::entry_ref::EntryRef;
use crate::note::{Entering, Made};
use crate::pass::Pass;
use crate::sequencer::{Sequencer, renew_front};
use ecp_book::{Book, Names};
use ecp_entry::Part;

impl<N: Names> Sequencer<N> {
    /// Adds an entry of the pass's open call to the history, in one place of the hand's room. Takes no memory, and copies
    /// none of the entry's bytes.
    pub fn enter(&mut self, book: &Book<N>, pass: &mut Pass<N>, entry: &EntryRef<'_>)
        requires agree { Agrees self.old pass.old }
        requires room { 1 ≤ room_noted pass.old.notes }
        requires own { IsOwn pass.old.caller pass.old.notes (entry_of entry.now) }
        requires follows { MayFollow N.shape N.told (history_of self.old.history) (entry_of entry.now) }
        requires bytes { HasBytes (entry_of entry.now) }
        ensures event { Event N.shape N.told self.old pass.old (entry_of entry.now ∷ []) (note (length self.old.history) (room_noted pass.old.notes - 1) (entering_of pass.old.hand (entry_of entry.now)) ∷ []) self.new pass.new }
        ensures calls { pass.new.calls ≡ pass.old.calls }
    {
        let hand = pass.hand.number();
        let made = Made { hand, entry };
        let point = self.keeper.len();
        let desk = &mut self.desks[usize::from(hand)];
        let room = desk.room() - 1;
        let opened = leaves_open(entry.line.part, desk.is_open());
        desk.note(book, &mut pass.hand, &Entering(made), point, room, opened);
        book.append(&mut self.keeper, &made);
        self.journal.add(entry.line);
        self.taken -= 1;
        renew_front(book, &mut self.keeper, &mut pass.front);
    }
}

// Whether a call that was open, or not, is open after an entry of this part.
fn leaves_open(part: Part, opened: bool) -> bool
    ensures { result ≡ (if is_end part then false else opened) }
{
    match part {
        Part::End => false,
        Part::Part(_) => opened,
    }
}
