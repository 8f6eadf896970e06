ghost use Rattle.std.specs.Prelude.{◌≡◌, length};
ghost use Rattle.ecp_link.specs.Links.{OnPushed, IfFull, IsSame, Goes, IsRefused};

use crate::limits::MOST_PUSHES;
use crate::pushed::Pushed;
use crate::ring::{Filled, LookForRoom, PUSHED, Ring, RingSeat, TAKEN, after};
use std::alloc::Global;
use std::marker::Model;
use std::sync::Arc;

/// One sender of a link. Contracts see its number, how much the link holds of it, and the list of all that it pushed.
///
/// It may go to another thread where `T` may. One that is dropped leaves on the link what was not taken.
#[derive(Drop)]
pub struct Sender<T> {
    pub(crate) ring: Arc<Ring<T>, Global>,
    pub(crate) seat: RingSeat<T>,
    pub(crate) number: u32,
    pub(crate) pushed: u64,
    pub(crate) place: usize,
}

impl<T> Model for Sender<T> {
    ghost use Rattle.ecp_link.specs.Links.{Sending};
    ghost use Rattle.ecp_link.specs.Rings.{IsSender};

    ghost Value = { Sending T };

    ghost view = { λ s. record { place = s.seat.table_id; number = s.number; capacity = s.ring.value.capacity; pushed = s.seat.me.0.pushed; looks = s.seat.me.0.looks } };

    ghost invariant = { λ s. IsSender s.ring.value.table.shared.table_id s.seat.table_id s.seat.me s.ring.value.capacity s.place s.pushed };
}

impl<T> Sender<T> {
    /// Puts the item on the link, behind all that this sender pushed. It never waits.
    ///
    /// The item comes back where the link holds `capacity` items of this sender, or where it has pushed `MOST_PUSHES`.
    pub fn push(&mut self, item: T) -> Pushed<T>
        ensures same { IsSame self.old self.new }
        ensures ok { OnPushed result (Goes self.old self.new item) }
        ensures full { IfFull result (λ x. (x ≡ item) × IsRefused self.old self.new) }
    {
        if self.pushed >= MOST_PUSHES {
            return Pushed::Full(item);
        }
        let capacity = self.ring.capacity;
        let shared = &self.ring.table.shared;
        let taken = shared.load::<LookForRoom>(&mut self.seat, TAKEN);
        if self.pushed - taken >= capacity as u64 {
            return Pushed::Full(item);
        }
        let free = shared.exchange(&mut self.seat, self.place, Some(item));
        let None = free else { unreachable!() };
        self.pushed += 1;
        self.place = after(self.place, capacity);
        shared.store::<Filled>(&mut self.seat, PUSHED, self.pushed);
        Pushed::Ok
    }

    /// How many items it pushed.
    pub fn pushed(&self) -> u64
        ensures { result ≡ length self.now.pushed }
    {
        self.pushed
    }
}
