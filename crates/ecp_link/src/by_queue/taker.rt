ghost use Rattle.std.specs.Prelude.{◌≡◌, length};
ghost use Rattle.ecp_link.specs.Links.{IsBeginning};
ghost use Rattle.ecp_link.specs.Queued.{ended_by, known_of};

use crate::NoMemory;
use crate::by_queue::rule::{Ends, Makes, Queue, Takes};
use crate::by_queue::sender::Sender;
use crate::by_queue::view::{Parcel, View};
use crossbeam_queue::Pass;
use std::alloc::Global;
use std::marker::Model;
use std::sync::{Arc, Wait};

/// The taker of a link. Contracts see what it took of each sender, and of a sender that it took in, what that pushed.
#[derive(Drop)]
pub struct Taker<T> {
    queue: Arc<Queue<T>, Global>,
    pass: Pass<Parcel<T>, View<T>>,
}

impl<T> Model for Taker<T> {
    ghost use Rattle.crossbeam_queue.specs.Passes.{IsPassOf, ruled_capacity};
    ghost use Rattle.ecp_link.specs.Queued.{Taking};
    ghost use Rattle.ecp_link.specs.Delivering.{IsTaker, known_by};

    ghost Value = { Taking T };

    ghost view = { λ t. record { link = t.pass.table_id; capacity = ruled_capacity t.queue.value; known = known_by t.pass } };

    ghost invariant = { λ t. IsPassOf t.queue.value t.pass × IsTaker t.pass };
}

impl<T> Taker<T> {
    ghost use Rattle.std.specs.Prelude.{◌≡◌, [], length, IfOk, IfSome, IfNone};
    ghost use Rattle.std.specs.Arc.{arc_value};
    ghost use Rattle.crossbeam_queue.specs.Passes.{view, IsPassOf, ruled_capacity};
    ghost use Rattle.ecp_link.specs.Delivering.{taker_of};
    ghost use Rattle.ecp_link.specs.Queued.{Takes as TakesOne, AreAllTaken, IsNext};

    // The taker of an empty queue, with no sender.
    pub(super) fn new(queue: Arc<Queue<T>, Global>, pass: Pass<Parcel<T>, View<T>>) -> Taker<T>
        requires pass { IsPassOf (arc_value queue) pass }
        requires first { view pass ≡ taker_of [] }
        ensures { result ≡ record { link = pass.table_id; capacity = ruled_capacity (arc_value queue); known = [] } }
    {
        Taker { queue, pass }
    }

    // The next sender, where there is memory for it.
    pub(super) fn next_sender(&mut self, number: u32) -> Result<Sender<T>, NoMemory>
        requires { number ≡ length self.old.known }
        ensures { IfOk result (λ s. IsNext self.old self.new s) }
    {
        let queue = Arc::try_clone(&self.queue)?;
        let pass = self.queue.another::<Makes>(&mut self.pass);
        Ok(Sender {
            queue,
            pass,
            number,
            pushed: 0,
        })
    }

    /// Takes the oldest item on the link. `None` comes only where nothing was on it at a step of this call; then all was
    /// taken of every sender that was taken in.
    pub fn pop<R: Wait>(&mut self, rt: &R) -> Option<T>
        ensures some { IfSome result (λ x. TakesOne self.old self.new x) }
        ensures none { IfNone result ((self.new ≡ self.old) × AreAllTaken self.old) }
    {
        let Parcel { from: _, item } = self.queue.pop_as::<Takes, R>(rt, &mut self.pass)?;
        Some(item)
    }
}

impl<T: Drop> Taker<T> {
    /// Ends a sender of this link, and answers how many items it pushed. What is on the link of it can still be taken.
    pub fn take_in(&mut self, sender: Sender<T>) -> u64
        requires { sender.link ≡ self.old.link }
        ensures count { result ≡ length sender.pushed }
        ensures ended { self.new ≡ ended_by self.old sender }
        ensures beginning { IsBeginning (known_of self.new.known sender.number) }
    {
        let Sender {
            queue: _,
            pass,
            number: _,
            pushed,
        } = sender;
        self.queue.absorb::<Ends>(&mut self.pass, pass);
        self.queue.learn_as::<Takes>(&mut self.pass);
        pushed
    }
}
