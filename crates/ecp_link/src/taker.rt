ghost use Rattle.std.specs.Prelude.{◌≡◌, length, IfSome, IfNone};
ghost use Rattle.ecp_link.specs.Links.{Takes, FindsNothing, IsOf, Ends};

use crate::asking::{Found, first_in_turn};
use crate::sender::Sender;
use crate::taker_end::TakerEnd;
use std::marker::Model;

/// The taker of a link. Contracts see what it took of each sender, and of a sender that it took in, what that pushed.
///
/// It may go to another thread where `T` may.
#[derive(Drop)]
pub struct Taker<T> {
    pub(crate) ends: Vec<TakerEnd<T>>,
    pub(crate) next: usize,
}

impl<T> Model for Taker<T> {
    ghost use Rattle.std.specs.Prelude.{◌≤◌, length};
    ghost use Rattle.ecp_link.specs.Links.{Takings};

    ghost Value = { Takings T };

    ghost view = { λ t. record { each = t.ends.items; next = t.next } };

    ghost invariant = { λ t. t.next ≤ length t.ends.items };
}

impl<T> Taker<T> {
    /// Takes the oldest item of the first sender that has one on the link. The senders are asked in rising order, beginning
    /// behind the one that was last taken from, at first with sender 0. It never waits.
    ///
    /// `None` comes only where, for each sender, nothing of it was on the link at a look of this call.
    pub fn pop(&mut self) -> Option<T>
        ensures some { IfSome result (λ x. Takes self.old self.new x) }
        ensures none { IfNone result (FindsNothing self.old self.new) }
    {
        let Found { from, item } = first_in_turn(&mut self.ends, self.next)?;
        self.next = from + 1;
        Some(item)
    }
}

impl<T: Drop> Taker<T> {
    /// Ends a sender of this link, and answers how many items it pushed. What is on the link of it can still be taken. It
    /// never waits.
    pub fn take_in(&mut self, sender: Sender<T>) -> u64
        requires { IsOf self.old sender }
        ensures count { result ≡ length sender.pushed }
        ensures ended { Ends self.old self.new sender }
    {
        self.ends[sender.number as usize].take_in(sender)
    }
}
