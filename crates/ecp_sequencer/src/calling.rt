//! How several hands note that a call began.
ghost use Rattle.std.specs.Prelude.{◌≡◌, ℕ, ◌+◌, ◌-◌, ◌*◌, ◌^◌, ◌<◌, ◌≤◌, All, length, map};
ghost use Rattle.ecp_sequencer.specs.Branches.{CanBegin, IsNone};
ghost use Rattle.ecp_sequencer.specs.Histories.{notes_at};
ghost use Rattle.ecp_sequencer.specs.Notes.{note, beginning_of};
ghost use Rattle.ecp_sequencer.specs.Passes.{call_seen, with_note};
ghost use Rattle.ecp_sequencer.specs.Sequencers.{IsSequencer, notes_of};

use crate::desk::Desk;
use crate::hand::Hand;
use crate::limits::ROOM;
use crate::note::Beginning;
use ecp_book::{Book, Keeper, Names};
use ecp_history::Journal;

/// Notes at each of these hands, and at its desk, that the call began, and gives the room of all hands then. Before it, that
/// was `taken`. The journal has the lines for it, and the history's log the places.
///
/// Each hand is met before its note.
pub(crate) fn call_each<N: Names>(
    book: &Book<N>,
    keeper: &Keeper<N>,
    journal: &Journal,
    desks: &mut Vec<Desk<N>>,
    mut taken: u64,
    hands: &mut [Hand<N>],
    call: Beginning,
) -> u64
    requires sequencer { IsSequencer N.shape N.told N.callers N.spare_hands keeper.now.log keeper.now.items journal.now desks.old.items taken }
    requires hands { All (CanBegin N.callers N.spare_hands call.number) hands.old }
    requires lines { taken + ROOM * length hands.old ≤ journal.now.spare }
    requires places { length keeper.now.items + (taken + ROOM * length hands.old) < 2 ^ 32 - 1 }
    ensures sequencer { IsSequencer N.shape N.told N.callers N.spare_hands keeper.now.log keeper.now.items journal.now desks.new.items result }
    ensures hands { hands.new ≡ map (λ h. with_note h (note (length keeper.now.items) ROOM (beginning_of (call_seen call.number call.deed)))) hands.old }
    ensures others { (hand : ℕ) → IsNone hands.old hand → notes_at (notes_of desks.new.items) hand ≡ notes_at (notes_of desks.old.items) hand }
{
    let point = keeper.len();
    for hand in hands.iter_mut() {
        let desk = &mut desks[usize::from(hand.number())];
        desk.meet(book, hand);
        taken = taken - u64::from(desk.room()) + u64::from(ROOM);
        desk.note(book, hand, &call, point, ROOM, true);
    }
    taken
}
