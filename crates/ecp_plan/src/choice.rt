//! Which rows of a stripe help to make one that is lost.

ghost use Rattle.std.specs.Prelude.{◌≡◌, ◌<◌, ◌≤◌, ◌-◌, true, nat_eq, nat_lt, count_by, length, map, take, drop, replicate, All};
ghost use Rattle.std.specs.List.{IsDistinct};
ghost use Rattle.std.specs.Option.{option_map};
ghost use Rattle.ecp_plan.specs.Choice.{IsChoice};
ghost use Rattle.ecp_plan.specs.Turns.{number, turn_of, turn_end, row_end, is_taken, nearer, IsNext};

use crate::live_row::LiveRow;
use crate::picks::Picks;
use crate::turn::Turn;
use ecp_shape::limits::MAX_ROWS;

/// Chooses k of the live rows to help: those whose nodes have the smallest stamps, ties going to the smaller node.
///
/// `stamps` has the stamp of each node, by its number; a node that helped longer ago has a smaller one. There are at
/// least k live rows, each row once and each node once. Takes no memory.
pub fn pick(stamps: &[u64], live: &[LiveRow], k: u8) -> Picks
    requires some { 1 ≤ k }
    requires most { k ≤ MAX_ROWS }
    requires enough { k ≤ length live.now }
    requires rows { IsDistinct nat_eq (map (λ x. x.row) live.now) }
    requires nodes { IsDistinct nat_eq (map (λ x. x.node) live.now) }
    requires stamped { All (λ x. x.node < length stamps.now) live.now }
    ensures len { result.len ≡ k }
    ensures choice { IsChoice stamps.now live.now k (take k result.rows) }
    ensures rest { drop k result.rows ≡ replicate (MAX_ROWS - k) 0 }
{
    let last = last_turn(stamps, live, k);
    let mut picks = Picks::none();
    let mut after = None;
    while let Some(row) = next_row(stamps, live, last, after) {
        picks.push(row);
        after = Some(row);
    }
    picks
}

/// The k-th of the turns of the nodes of the live rows.
fn last_turn(stamps: &[u64], live: &[LiveRow], k: u8) -> Option<Turn>
    requires some { 1 ≤ k }
    requires enough { k ≤ length live.now }
    requires nodes { IsDistinct nat_eq (map (λ x. x.node) live.now) }
    requires stamped { All (λ x. x.node < length stamps.now) live.now }
    ensures count { count_by (is_taken stamps.now result) live.now ≡ k }
    ensures bytes { All (λ x. x.node < 256) live.now }
{
    let mut last = None;
    for _taken in 0..k {
        last = next_turn(stamps, live, last);
    }
    last
}

/// The turn that comes next after `after`, among those of the nodes of the live rows, or the first of all.
fn next_turn(stamps: &[u64], live: &[LiveRow], after: Option<Turn>) -> Option<Turn>
    requires { All (λ x. x.node < length stamps.now) live.now }
    ensures next { IsNext (λ _. true) (turn_of stamps.now) live.now (turn_end after) (option_map number result) }
    ensures bytes { All (λ x. x.node < 256) live.now }
{
    let mut next = None;
    for row in live {
        next = nearer_turn(next, after, Turn::of(stamps, row));
    }
    next
}

/// The turn `turn` where it comes after `after` and before the one found, else the one found.
fn nearer_turn(found: Option<Turn>, after: Option<Turn>, turn: Turn) -> Option<Turn>
    ensures { option_map number result ≡ nearer (option_map number found) (turn_end after) (number turn) }
{
    if is_by(turn, after) {
        return found;
    }
    match found {
        Some(found) if !turn.is_before(found) => Some(found),
        Some(_) | None => Some(turn),
    }
}

/// Whether a turn comes no later than the last one that is taken, if there is one.
fn is_by(turn: Turn, last: Option<Turn>) -> bool
    ensures { result ≡ nat_lt (number turn) (turn_end last) }
{
    match last {
        Some(last) => !last.is_before(turn),
        None => false,
    }
}

/// The row that comes next after `after`, among the live rows whose nodes' turns come no later than `last`, or the first.
fn next_row(stamps: &[u64], live: &[LiveRow], last: Option<Turn>, after: Option<u8>) -> Option<u8>
    requires { All (λ x. x.node < length stamps.now) live.now }
    ensures { IsNext (is_taken stamps.now last) (λ x. x.row) live.now (row_end after) result }
{
    let mut next = None;
    for row in live {
        if is_by(Turn::of(stamps, row), last) {
            next = nearer_row(next, after, row.row);
        }
    }
    next
}

/// The row `row` where it comes after `after` and before the one found, else the one found.
fn nearer_row(found: Option<u8>, after: Option<u8>, row: u8) -> Option<u8>
    ensures { result ≡ nearer found (row_end after) row }
{
    if after.is_some_and(|after| row <= after) {
        return found;
    }
    match found {
        Some(found) if found <= row => Some(found),
        Some(_) | None => Some(row),
    }
}
