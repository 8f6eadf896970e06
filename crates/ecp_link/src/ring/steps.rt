//! The kinds of step on a ring.
ghost use Rattle.std.specs.Prelude.{◌≡◌};
ghost use Rattle.ecp_link.specs.Rings.{FindsRoom, FindsItem, FindsNoItem, filled, emptied, sender_part, taker_part, ended, spent, Knows};

use crate::ring::view::View;
use atomic_table::{Join, Play, Split};

/// The sender's load of the taken word, which takes the next free place where there is one.
pub(crate) struct LookForRoom;

impl<T> Play<Option<T>, View<T>> for LookForRoom {
    ghost then = { λ s v n w. FindsRoom s.slots v n w };
}

/// The sender's store of the pushed word, which gives the place back with its item.
pub(crate) struct Filled;

impl<T> Play<Option<T>, View<T>> for Filled {
    ghost then = { λ s v n w. w ≡ filled v };
}

/// The taker's load of the pushed word, which takes the place of the oldest item where there is one.
pub(crate) struct LookForItem;

impl<T> Play<Option<T>, View<T>> for LookForItem {
    ghost then = { λ s v n w. FindsItem s.slots v n w };
}

/// The taker's load of the pushed word, which is a look where there is no item, and else says nothing.
pub(crate) struct LookForNone;

impl<T> Play<Option<T>, View<T>> for LookForNone {
    ghost then = { λ s v n w. FindsNoItem v n w };
}

/// The taker's store of the taken word, which gives the empty place back.
pub(crate) struct Emptied;

impl<T> Play<Option<T>, View<T>> for Emptied {
    ghost then = { λ s v n w. w ≡ emptied v };
}

/// The split of the first seat into the sender's and the taker's.
pub(crate) struct Parts;

impl<T> Split<View<T>> for Parts {
    ghost left = { taker_part };

    ghost right = { sender_part };
}

/// The join by which the taker takes the sender in.
pub(crate) struct Ends;

impl<T> Join<View<T>> for Ends {
    ghost both = { ended };

    ghost spent = { spent };
}

/// The load of the pushed word after that join: what was taken begins what the sender pushed.
pub(crate) struct Learn;

impl<T> Play<Option<T>, View<T>> for Learn {
    ghost then = { λ s v n w. (w ≡ v) × Knows v.0 n };
}
