//! Passes are raised by the fronts of others.
ghost use Rattle.std.specs.Prelude.{◌≡◌};
ghost use mathlib.Core.List.{IsPrefix};
ghost use Rattle.ecp_book.specs.Logs.{history_log};
ghost use Rattle.ecp_sequencer.specs.Passes.{longer};

use crate::Pass;
use crate::service::Service;
use ecp_book::{Names, Tag};
use ecp_helper::Gate;
use ecp_store::Store;

impl<N: Names, S: Store, G: Gate> Service<N, S, G> {
    /// A copy of the pass's front.
    pub fn front(&self, pass: &mut Pass<N>) -> Tag<N>
        ensures front { result ≡ record { log = history_log; items = pass.old.front } }
        ensures kept { pass.new ≡ pass.old }
    {
        pass.front(&self.book)
    }

    /// Makes the front of the pass the longer of its own and the given one, which stays as it is. So the calls that the pass
    /// makes from now on come after all that the other front tells. Takes no memory, and never waits.
    pub fn raise(&self, pass: &mut Pass<N>, front: &mut Tag<N>)
        requires { front.old.log ≡ history_log }
        ensures raised { pass.new ≡ record pass.old { front = longer pass.old.front front.old.items } }
        ensures extends { IsPrefix pass.old.front pass.new.front }
        ensures reaches { IsPrefix front.old.items pass.new.front }
        ensures front { front.new ≡ front.old }
    {
        pass.raise(&self.book, front);
    }
}
