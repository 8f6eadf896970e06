//! The rule of the queue, and what each kind of step tells.
ghost use Rattle.std.specs.Prelude.{◌≡◌, [], ◌++◌, ◌∷◌, ◌<◌, length};
ghost use Rattle.ecp_link.specs.Links.{unknown};
ghost use Rattle.ecp_link.specs.Delivering.{IsDelivering, sender_of, taker_of, spent, known_after, known_ended, HoldsOwn, HoldsRest};

use crate::by_queue::view::{Parcel, View};
use crossbeam_queue::RuledArrayQueue;
use crossbeam_queue::protocol::{Join, Lesson, Outcome, Protocol, Split};
use std::alloc::Global;

/// Of each sender, what was taken and then what the queue holds is what it pushed.
pub struct PerSender;

pub(crate) type Queue<T> = RuledArrayQueue<Parcel<T>, View<T>, PerSender, Global>;

impl<T> Protocol<Parcel<T>, View<T>> for PerSender {
    ghost holds = { λ items views. IsDelivering items views };

    ghost first = { taker_of [] };
}

/// A push by a sender. Where it fails, the queue held the last that the sender pushed.
pub struct Sends;

impl<T> Outcome<Parcel<T>, View<T>> for Sends {
    ghost then = { λ v x w. w ≡ sender_of v.from (v.pushed ++ x.item ∷ []) };
}

impl<T> Lesson<Parcel<T>, View<T>> for Sends {
    ghost fact = { HoldsOwn };
}

/// A pop by the taker, or a look at what is there. Where nothing is there, all of the ended senders was taken.
pub struct Takes;

impl<T> Outcome<Parcel<T>, View<T>> for Takes {
    ghost then = { λ v x w. (x.from < length v.known) × (w ≡ taker_of (known_after v.known x)) };
}

impl<T> Lesson<Parcel<T>, View<T>> for Takes {
    ghost fact = { HoldsRest };
}

/// The making of the next sender.
pub struct Makes;

impl<T> Split<View<T>> for Makes {
    ghost left = { λ v. taker_of (v.known ++ unknown ∷ []) };

    ghost right = { λ v. sender_of (length v.known) [] };
}

/// The end of a sender.
pub struct Ends;

impl<T> Join<View<T>> for Ends {
    ghost both = { λ v w. taker_of (known_ended v.known w.from w.pushed) };

    ghost spent = { spent };
}
