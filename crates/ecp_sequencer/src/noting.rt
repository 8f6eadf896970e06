//! The events that note something of a hand, and add nothing to the history.
ghost use Rattle.std.specs.Prelude.{◌≡◌, ℕ, ◌+◌, ◌-◌, ◌^◌, ◌≤◌, [], ◌∷◌, length, min, slice_index, OnOk, OnErr};
ghost use Rattle.ecp_sequencer.specs.Notes.{note, other, beginning_of};
ghost use Rattle.ecp_sequencer.specs.Facts.{room_noted};
ghost use Rattle.ecp_sequencer.specs.Sequencers.{Agrees};
ghost use Rattle.ecp_sequencer.specs.Steps.{Event, call_with};

use crate::NoMemory;
use crate::limits::ROOM;
use crate::note::Beginning;
use crate::pass::Pass;
use crate::room::make_room;
use crate::sequencer::Sequencer;
use ecp_book::{Book, Entered, Names};
use ecp_entry::Deed;

impl<N: Names> Sequencer<N> {
    /// Begins the caller's next call, and makes the room of its hand [`ROOM`]. A call that was open is open no more.
    ///
    /// Want of memory is the only error. It notes nothing, but takes the call's number all the same, unless there is no
    /// greater number.
    pub fn begin(&mut self, book: &Book<N>, pass: &mut Pass<N>, deed: Deed) -> Result<(), NoMemory>
        requires { Agrees self.old pass.old }
        ensures ok { OnOk result (Event N.shape N.told self.old pass.old [] (note (length self.old.history) ROOM (beginning_of (call_with pass.old.calls deed)) ∷ []) self.new pass.new) }
        ensures err { OnErr result (Event N.shape N.told self.old pass.old [] [] self.new pass.new) }
        ensures counted { OnOk result (pass.new.calls ≡ pass.old.calls + 1) }
        ensures calls { pass.new.calls ≡ min (pass.old.calls + 1) (2 ^ 32 - 1) }
        ensures rises { pass.old.calls ≤ pass.new.calls }
    {
        self.renew(book, pass);
        let number = pass.calls;
        let Some(next) = number.checked_add(1) else {
            return Err(NoMemory);
        };
        pass.calls = next;
        let point = self.keeper.len();
        let desk = &mut self.desks[usize::from(pass.hand.number())];
        let taken = make_room(&mut self.journal, desk, point, self.taken)?;
        let began = Beginning {
            number,
            deed: Some(deed),
        };
        desk.note(book, &mut pass.hand, &began, point, ROOM, true);
        pass.number = began.number;
        pass.deed = began.deed;
        self.taken = taken;
        Ok(())
    }

    /// Notes what the layer above says of the hand, in one place of its room. Takes no memory.
    ///
    /// The item of `what` is the kind of the note, from 3 on, and behind that what it says.
    pub fn note<E: Entered>(&mut self, book: &Book<N>, pass: &mut Pass<N>, what: &E)
        requires agree { Agrees self.old pass.old }
        requires room { 1 ≤ room_noted pass.old.notes }
        requires kind { other ≤ slice_index (E.item what.now) 0 }
        ensures event { Event N.shape N.told self.old pass.old [] (note (length self.old.history) (room_noted pass.old.notes - 1) (E.item what.now) ∷ []) self.new pass.new }
        ensures calls { pass.new.calls ≡ pass.old.calls }
    {
        self.renew(book, pass);
        let point = self.keeper.len();
        let desk = &mut self.desks[usize::from(pass.hand.number())];
        let room = desk.room() - 1;
        let opened = desk.is_open();
        desk.note(book, &mut pass.hand, what, point, room, opened);
        self.taken -= 1;
    }

    /// Notes what the layer above says of the hand, and makes the room of the hand [`ROOM`].
    ///
    /// Want of memory is the only error. It notes nothing.
    pub fn note_taking<E: Entered>(
        &mut self,
        book: &Book<N>,
        pass: &mut Pass<N>,
        what: &E,
    ) -> Result<(), NoMemory>
        requires agree { Agrees self.old pass.old }
        requires kind { other ≤ slice_index (E.item what.now) 0 }
        ensures ok { OnOk result (Event N.shape N.told self.old pass.old [] (note (length self.old.history) ROOM (E.item what.now) ∷ []) self.new pass.new) }
        ensures err { OnErr result (Event N.shape N.told self.old pass.old [] [] self.new pass.new) }
        ensures calls { pass.new.calls ≡ pass.old.calls }
    {
        self.renew(book, pass);
        let point = self.keeper.len();
        let desk = &mut self.desks[usize::from(pass.hand.number())];
        let taken = make_room(&mut self.journal, desk, point, self.taken)?;
        let opened = desk.is_open();
        desk.note(book, &mut pass.hand, what, point, ROOM, opened);
        self.taken = taken;
        Ok(())
    }
}
