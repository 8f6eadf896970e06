ghost use Rattle.std.specs.Prelude.{◌≡◌, ℕ, ◌+◌, ◌-◌, ◌*◌, ◌^◌, ◌<◌, ◌≤◌, All, length, IfOk, IsTrue, OnOk, OnErr};

use crate::NoMemory;
use crate::desk::Desk;
use crate::hand::Hand;
use crate::limits::ROOM;
use ecp_book::Names;
use ecp_history::Journal;

/// Takes the memory with which the room of a hand becomes `ROOM`, beside one more note, and answers the room of all hands
/// then. Before it, the room of all hands was `taken`, and the history had `len` items.
///
/// Where a log would come too near its end, this is want of memory too. A refusal changes nothing.
pub(crate) fn make_room<N: Names>(
    journal: &mut Journal,
    desk: &Desk<N>,
    len: u32,
    taken: u64,
) -> Result<u64, NoMemory>
    requires taken { (desk.now.room ≤ taken) × (len + taken < 2 ^ 32 - 1) }
    ensures lines { journal.new.lines ≡ journal.old.lines }
    ensures room { IfOk result (λ t. t + desk.now.room ≡ taken + ROOM) }
    ensures spare { IfOk result (λ t. t ≤ journal.new.spare) }
    ensures history { IfOk result (λ t. len + t < 2 ^ 32 - 1) }
    ensures places { IfOk result (λ t. length desk.now.notes + 1 + ROOM < 2 ^ 32 - 1) }
    ensures err { OnErr result (journal.new.spare ≡ journal.old.spare) }
{
    let all = taken - u64::from(desk.room()) + u64::from(ROOM);
    let end = u64::from(u32::MAX);
    if u64::from(desk.len()) + 1 + u64::from(ROOM) >= end || u64::from(len) + all >= end {
        return Err(NoMemory);
    }
    journal.reserve(all as u32)?;
    Ok(all)
}

/// Takes the memory with which each of these hands can have the room `ROOM`, beside one more note. Before it, the room of
/// all hands was `taken`, and the history had `len` items.
///
/// Where a log would come too near its end, this is want of memory too. A refusal changes nothing.
pub(crate) fn make_room_for_all<N: Names>(
    journal: &mut Journal,
    hands: &[Hand<N>],
    len: u32,
    taken: u64,
) -> Result<(), NoMemory>
    ensures lines { journal.new.lines ≡ journal.old.lines }
    ensures spare { OnOk result (taken + ROOM * length hands.now ≤ journal.new.spare) }
    ensures history { OnOk result (len + (taken + ROOM * length hands.now) < 2 ^ 32 - 1) }
    ensures places { OnOk result (All (λ h. length h.notes + 1 + ROOM < 2 ^ 32 - 1) hands.now) }
    ensures err { OnErr result (journal.new.spare ≡ journal.old.spare) }
{
    let more = u64::from(ROOM).saturating_mul(hands.len() as u64);
    let all = taken.saturating_add(more);
    let end = u64::from(u32::MAX);
    if all.saturating_add(u64::from(len)) >= end || !all_have_places(hands) {
        return Err(NoMemory);
    }
    journal.reserve(all as u32)?;
    Ok(())
}

// Whether the log of each of these hands has places for a call.
fn all_have_places<N: Names>(hands: &[Hand<N>]) -> bool
    ensures { IsTrue result → All (λ h. length h.notes + 1 + ROOM < 2 ^ 32 - 1) hands.now }
{
    for hand in hands {
        if u64::from(hand.len()) + 1 + u64::from(ROOM) >= u64::from(u32::MAX) {
            return false;
        }
    }
    true
}
