//! One ring: the places through which one sender's items go to the taker, and two words that count them.
//!
//! The sender has the turn of the free places, and the taker that of the others. A place is taken with a load of the
//! other side's word, and is given back with the store of the own one.
ghost use Rattle.std.specs.Prelude.{◌≡◌, ℕ, ◌+◌, ◌%◌, ◌<◌};

mod rule;
mod steps;
mod view;

use atomic_table::{Seat, Table};
pub(crate) use rule::InTurn;
use std::alloc::Global;
pub(crate) use steps::{
    Emptied, Ends, Filled, Learn, LookForItem, LookForNone, LookForRoom, Parts,
};
pub(crate) use view::View;

// The words lie 128 bytes apart, so that they share no cache line with each other or with what lies beside them.
pub(crate) const PUSHED: usize = 16;

pub(crate) const TAKEN: usize = 32;

pub(crate) const WORDS: usize = 48;

/// A seat at a ring.
pub(crate) type RingSeat<T> = Seat<Option<T>, View<T>>;

/// The words and places of one sender and the taker.
#[derive(Drop)]
pub(crate) struct Ring<T> {
    pub(crate) table: Table<Option<T>, View<T>, (), InTurn, Global>,
    pub(crate) capacity: usize,
    ghost words: { table.shared.table_id.words ≡ 48 },
    ghost places: { table.shared.table_id.slots ≡ capacity },
}

/// The place of the next item, behind that of some item.
pub(crate) fn after(place: usize, capacity: usize) -> usize
    requires { place < capacity }
    ensures { (count : ℕ) → place ≡ count % capacity → result ≡ (count + 1) % capacity }
{
    if place + 1 < capacity { place + 1 } else { 0 }
}
