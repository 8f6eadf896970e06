ghost use Rattle.std.specs.Prelude.{◌≡◌, ◌++◌, ◌∷◌, [], length};
ghost use Rattle.ecp_link.specs.Links.{OnPushed, IfFull};
ghost use Rattle.ecp_link.specs.Queued.{with_pushed, IsRefused};

use crate::Pushed;
use crate::by_queue::rule::{Queue, Sends};
use crate::by_queue::view::{Parcel, View};
use crate::limits::MOST_PUSHES;
use crossbeam_queue::Pass;
use std::alloc::Global;
use std::marker::Model;
use std::sync::{Arc, Wait};

/// One sender of a link. Contracts see its number, the link's capacity, and the list of all that it pushed.
#[derive(Drop)]
pub struct Sender<T> {
    pub(crate) queue: Arc<Queue<T>, Global>,
    pub(crate) pass: Pass<Parcel<T>, View<T>>,
    pub(crate) number: u32,
    pub(crate) pushed: u64,
}

impl<T> Model for Sender<T> {
    ghost use Rattle.crossbeam_queue.specs.Passes.{IsPassOf, ruled_capacity};
    ghost use Rattle.ecp_link.specs.Queued.{Sending};
    ghost use Rattle.ecp_link.specs.Delivering.{IsSender, pushed_by};

    ghost Value = { Sending T };

    ghost view = { λ s. record { link = s.pass.table_id; number = s.number; capacity = ruled_capacity s.queue.value; pushed = pushed_by s.pass } };

    ghost invariant = { λ s. IsPassOf s.queue.value s.pass × IsSender s.pass s.number s.pushed };
}

impl<T> Sender<T> {
    /// Puts the item on the link, behind all that this sender pushed. Where the link is full, or where this sender has
    /// pushed `MOST_PUSHES` items, the item comes back.
    pub fn push<R: Wait>(&mut self, rt: &R, item: T) -> Pushed<T>
        ensures ok { OnPushed result (self.new ≡ with_pushed self.old (self.old.pushed ++ item ∷ [])) }
        ensures full { IfFull result (λ x. (x ≡ item) × (self.new ≡ self.old)) }
        ensures cause { IfFull result (λ _. IsRefused self.old) }
    {
        if self.pushed >= MOST_PUSHES {
            return Pushed::Full(item);
        }
        let parcel = Parcel {
            from: self.number,
            item,
        };
        match self.queue.push_as::<Sends, R>(rt, &mut self.pass, parcel) {
            Ok(()) => {
                self.pushed += 1;
                Pushed::Ok
            }
            Err(parcel) => {
                let Parcel { from: _, item } = parcel;
                Pushed::Full(item)
            }
        }
    }

    /// How many items it pushed.
    pub fn pushed(&self) -> u64
        ensures { result ≡ length self.now.pushed }
    {
        self.pushed
    }
}
