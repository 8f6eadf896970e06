//! The events of a caller with several hands: what its spare hands know of its call.
ghost use Rattle.std.specs.Prelude.{◌≡◌, ◌≢◌, ℕ, ◌<◌, ◌≤◌, All, length, map, OnOk, OnErr};
ghost use Rattle.ecp_shape.specs.declared.limits.TheConstants.{MAX_SESSIONS};
ghost use Rattle.ecp_sequencer.specs.Branches.{CanEnd, IsKnown, IsNews, IsNone, released};
ghost use Rattle.ecp_sequencer.specs.Closed.{IsHeard};
ghost use Rattle.ecp_sequencer.specs.Facts.{facts_of};
ghost use Rattle.ecp_sequencer.specs.Hands.{hands_of, IsHandOf};
ghost use Rattle.ecp_sequencer.specs.Histories.{IsKept, notes_at};
ghost use Rattle.ecp_sequencer.specs.Sequencers.{Agrees};
ghost use Rattle.ecp_sequencer.specs.Steps.{CallsSpares, ReleasesSpares};

use crate::NoMemory;
use crate::calling::call_each;
use crate::hand::Hand;
use crate::note::{Beginning, Over};
use crate::pass::Pass;
use crate::room::make_room_for_all;
use crate::sequencer::Sequencer;
use ecp_book::{Book, Names};

impl<N: Names> Sequencer<N> {
    /// Meets the hand that acts by the pass, and all its spare hands. Changes nothing.
    pub fn gather(&mut self, book: &Book<N>, pass: &mut Pass<N>)
        ensures agree { Agrees self.old pass.old }
        ensures spare { All (IsKnown self.old pass.old.front) pass.old.spare }
        ensures numbered { All (λ h. (facts_of h.notes).calls ≤ pass.old.calls) pass.old.spare }
        ensures kept { IsKept N.shape N.told N.callers N.spare_hands self.old.history self.old.notes }
        ensures session { pass.old.caller < MAX_SESSIONS }
        ensures places { pass.old.places ≡ N.spare_hands }
        ensures own { IsHandOf N.spare_hands pass.old.caller pass.old.hand }
        ensures in_range { pass.old.hand < hands_of N.callers N.spare_hands }
        ensures same { self.new ≡ self.old }
        ensures pass { pass.new ≡ pass.old }
    {
        self.meet(book, pass);
        self.meet_each(book, pass.spare.as_mut_slice());
    }

    /// Notes at each spare hand that the pass's open call began, and makes the room of each [`crate::limits::ROOM`].
    ///
    /// Want of memory is the only error. It changes nothing.
    pub fn call_spares(&mut self, book: &Book<N>, pass: &mut Pass<N>) -> Result<(), NoMemory>
        requires agree { Agrees self.old pass.old }
        requires spare { All (IsKnown self.old pass.old.front) pass.old.spare }
        requires news { IsNews pass.old }
        ensures ok { OnOk result (CallsSpares self.old pass.old self.new pass.new) }
        ensures err { OnErr result ((self.new ≡ self.old) × (pass.new ≡ pass.old)) }
    {
        let point = self.keeper.len();
        make_room_for_all(&mut self.journal, pass.spare.as_slice(), point, self.taken)?;
        let call = Beginning {
            number: pass.number,
            deed: pass.deed,
        };
        self.taken = call_each(
            book,
            &self.keeper,
            &self.journal,
            &mut self.desks,
            self.taken,
            pass.spare.as_mut_slice(),
            call,
        );
        self.gather(book, pass);
        self.renew(book, pass);
        Ok(())
    }

    /// Notes at each spare hand whose call is open that it is over. Takes no memory.
    ///
    /// Such a hand has no room from then on.
    pub fn release(&mut self, book: &Book<N>, pass: &mut Pass<N>)
        requires agree { Agrees self.old pass.old }
        requires spare { All (IsKnown self.old pass.old.front) pass.old.spare }
        requires room { All CanEnd pass.old.spare }
        ensures { ReleasesSpares self.old pass.old self.new pass.new }
    {
        self.renew(book, pass);
        self.release_each(book, pass.spare.as_mut_slice());
        self.gather(book, pass);
    }

    // Meets each of these hands.
    fn meet_each(&mut self, book: &Book<N>, hands: &mut [Hand<N>])
        requires { All (λ h. h.hand < hands_of N.callers N.spare_hands) hands.old }
        ensures heard { All (IsHeard self.old) hands.old }
        ensures same { self.new ≡ self.old }
        ensures hands { hands.new ≡ hands.old }
    {
        for hand in hands.iter_mut() {
            self.meet_hand(book, hand);
        }
    }

    // Notes that the call of each of these hands is over, where it is open.
    fn release_each(&mut self, book: &Book<N>, hands: &mut [Hand<N>])
        requires in_range { All (λ h. h.hand < hands_of N.callers N.spare_hands) hands.old }
        requires room { All CanEnd hands.old }
        ensures history { self.new.history ≡ self.old.history }
        ensures hands { hands.new ≡ map (released (length self.old.history)) hands.old }
        ensures others { (hand : ℕ) → IsNone hands.old hand → notes_at self.new.notes hand ≡ notes_at self.old.notes hand }
    {
        for hand in hands.iter_mut() {
            self.release_hand(book, hand);
        }
    }

    // Notes that the call of a hand is over, where it is open.
    fn release_hand(&mut self, book: &Book<N>, hand: &mut Hand<N>)
        requires in_range { hand.old.hand < hands_of N.callers N.spare_hands }
        requires room { CanEnd hand.old }
        ensures hand { hand.new ≡ released (length self.old.history) hand.old }
        ensures history { self.new.history ≡ self.old.history }
        ensures others { (other : ℕ) → hand.old.hand ≢ other → notes_at self.new.notes other ≡ notes_at self.old.notes other }
    {
        let point = self.keeper.len();
        let desk = &mut self.desks[usize::from(hand.number())];
        desk.meet(book, hand);
        if !desk.is_open() {
            return;
        }
        let room = u64::from(desk.room());
        desk.note(book, hand, &Over, point, 0, false);
        self.taken -= room;
    }
}
