//! The kinds of step on the words of a book.
ghost use Rattle.std.specs.Prelude.{◌≡◌, ◌+◌, [], length};
ghost use Rattle.ecp_book.specs.Rules.{Grows, Learns, opener_of, keeper_of, tag_of, ended_of, spent, meeting};

use crate::view::View;
use atomic_table::{Join, Play, Split};
use std::marker::{Brand, PhantomData};

/// Names the item that a call adds. The call picks it.
pub(crate) trait Adding {
    ghost use Rattle.std.specs.Prelude.{ℕ, List};

    ghost item: { List ℕ };
}

impl Adding for Brand {
    ghost use Rattle.std.specs.Prelude.{[]};

    ghost item = { [] };
}

/// A store by which a log grows.
pub(crate) struct Append<J> {
    item: PhantomData<J>,
}

impl<J: Adding> Play<(), View> for Append<J> {
    ghost then = { λ s v n w. Grows J.item v.0 w.0 × (w.1 ≡ v.1) };
}

/// A load that ends a meeting.
pub(crate) struct Learn;

impl Play<(), View> for Learn {
    ghost then = { λ s v n w. Learns v.0 w.0 × (w.1 ≡ v.1) };
}

/// A load after which a tag says nothing.
pub(crate) struct EndTag;

impl Play<(), View> for EndTag {
    ghost then = { λ s v n w. w.0 ≡ spent };
}

/// A load that finds the length of a log, which grows no more.
pub(crate) struct EndKeeper;

impl Play<(), View> for EndKeeper {
    ghost then = { λ s v n w. (n ≡ length v.0.items) × (w.0 ≡ ended_of v.0.log v.0.items) };
}

/// A split that makes a tag with the same list.
pub(crate) struct Copies;

impl Split<View> for Copies {
    ghost left = { λ v. v };

    ghost right = { λ v. tag_of v.log v.items };
}

/// A split that makes the keeper of the next log.
pub(crate) struct Opens;

impl Split<View> for Opens {
    ghost left = { λ v. opener_of (v.log + 1) };

    ghost right = { λ v. keeper_of v.log [] };
}

/// A join that begins a meeting.
pub(crate) struct Meet;

impl Join<View> for Meet {
    ghost both = { λ v w. meeting v w.items };

    ghost spent = { spent };
}
