//! Where the message of a turn comes from.

ghost use Rattle.std.specs.Prelude.{◌≡◌, ◌≤◌, IfSome, IfNone};
ghost use Rattle.ecp_helper.specs.Forwards.{Forwards};
ghost use Rattle.ecp_helper.specs.Helpers.{HasRoom};
ghost use Rattle.ecp_helper.specs.Steps.{Comes, NoneComes, HasNone};
ghost use Rattle.ecp_helper.specs.Turns.{Draws};

use super::Helper;
use ecp_book::Names;
use ecp_link::Pushed;
use ecp_slice::{Next, SliceMsg};
use ecp_store::Store;

/// What became of the oldest message that was added here.
pub(super) enum Forwarded {
    /// It went on.
    Passed,
    /// The link to this stop is full.
    Full(Next),
    /// There is none.
    Nothing,
}

impl<N: Names, S: Store> Helper<N, S> {
    /// Tries to send the oldest message on that was added here. Where its link is full it stays where it was.
    pub(super) fn forward(&mut self) -> Forwarded
        ensures { Forwards self.old self.new result }
    {
        let Some(message) = self.room.added.pop_front() else {
            return Forwarded::Nothing;
        };
        let to = message.next();
        match self.senders.push(to, message) {
            Pushed::Ok => Forwarded::Passed,
            Pushed::Full(back) => {
                let Ok(()) = self.room.added.push_front(back) else {
                    unreachable!()
                };
                Forwarded::Full(to)
            }
        }
    }

    /// Takes the message of the turn: one of the link, or the oldest that waits.
    pub(super) fn draw(&mut self) -> Option<SliceMsg<N>>
        ensures some { IfSome result (λ m. Draws self.old self.new m) }
        ensures room { IfSome result (λ m. HasRoom self.new) }
        ensures none { IfNone result (HasNone self.old self.new) }
        ensures some_held { 1 ≤ self.new.holds }
    {
        if let Some(message) = self.pop() {
            return Some(message);
        }
        self.room.waiting.pop_front()
    }

    /// Takes a message from the link, where there is room to hold it.
    fn pop(&mut self) -> Option<SliceMsg<N>>
        ensures some { IfSome result (λ m. Comes self.old self.new m) }
        ensures none { IfNone result (NoneComes self.old self.new) }
        ensures kept { IfNone result (self.new ≡ record self.old { taker = self.new.taker }) }
    {
        if self.room.added.len() + self.room.waiting.len() >= self.holds {
            return None;
        }
        self.taker.pop()
    }
}
