ghost use Rattle.std.specs.Prelude.{◌≡◌, false, length, IsTrue, IfSome, IfNone};
ghost use mathlib.Core.List.{IsPrefix};
ghost use Rattle.ecp_link.specs.Links.{TakesOne, FindsNone, with_end};

use crate::ring::{
    Emptied, Ends, Learn, LookForItem, LookForNone, PUSHED, Ring, RingSeat, TAKEN, after,
};
use crate::sender::Sender;
use std::alloc::Global;
use std::marker::Model;
use std::sync::Arc;

/// The taker's end of one sender's ring.
#[derive(Drop)]
pub(crate) struct TakerEnd<T> {
    pub(crate) ring: Arc<Ring<T>, Global>,
    pub(crate) seat: RingSeat<T>,
    pub(crate) taken: u64,
    pub(crate) place: usize,
}

impl<T> Model for TakerEnd<T> {
    ghost use Rattle.ecp_link.specs.Links.{Taking};
    ghost use Rattle.ecp_link.specs.Rings.{IsTaker, ended_in};

    ghost Value = { Taking T };

    ghost view = { λ e. record { place = e.seat.table_id; known = record { taken = e.seat.me.0.taken; ended = ended_in e.seat.me.0 }; looks = e.seat.me.0.looks } };

    ghost invariant = { λ e. IsTaker e.ring.value.table.shared.table_id e.seat.table_id e.seat.me e.ring.value.capacity e.place e.taken };
}

impl<T> TakerEnd<T> {
    /// Whether a look finds nothing of the sender. One that finds something changes nothing, and tells nothing.
    ///
    /// It handles no item, so that a pop over many senders costs a load for each that sent nothing.
    pub(crate) fn is_empty(&mut self) -> bool
        ensures none { IsTrue result → FindsNone self.old self.new }
        ensures some { result ≡ false → self.new ≡ self.old }
    {
        let shared = &self.ring.table.shared;
        let pushed = shared.load::<LookForNone>(&mut self.seat, PUSHED);
        pushed == self.taken
    }

    /// Takes the oldest item of the sender, where one is there.
    pub(crate) fn take(&mut self) -> Option<T>
        ensures some { IfSome result (λ x. TakesOne self.old self.new x) }
        ensures none { IfNone result (FindsNone self.old self.new) }
    {
        let shared = &self.ring.table.shared;
        let pushed = shared.load::<LookForItem>(&mut self.seat, PUSHED);
        if pushed == self.taken {
            return None;
        }
        let item = shared.exchange(&mut self.seat, self.place, None);
        self.taken += 1;
        self.place = after(self.place, self.ring.capacity);
        shared.store::<Emptied>(&mut self.seat, TAKEN, self.taken);
        item
    }
}

impl<T: Drop> TakerEnd<T> {
    /// Ends the sender, and answers how many items it pushed.
    pub(crate) fn take_in(&mut self, sender: Sender<T>) -> u64
        requires { sender.place ≡ self.old.place }
        ensures count { result ≡ length sender.pushed }
        ensures ended { self.new ≡ with_end self.old sender.pushed }
        ensures begins { IsPrefix self.old.known.taken sender.pushed }
    {
        let Sender { seat, .. } = sender;
        let shared = &self.ring.table.shared;
        shared.join_seat::<Ends>(&mut self.seat, seat);
        shared.load::<Learn>(&mut self.seat, PUSHED)
    }
}
