//! A call that the layer above refuses.
ghost use Rattle.std.specs.Prelude.{◌≡◌, ◌+◌, ◌-◌, ◌^◌, [], min};
ghost use Rattle.ecp_sequencer.specs.Sequencers.{Agrees};
ghost use Rattle.ecp_sequencer.specs.Steps.{Event};

use crate::pass::Pass;
use crate::sequencer::Sequencer;
use ecp_book::{Book, Names};

impl<N: Names> Sequencer<N> {
    /// Takes the number of the caller's next call, which is refused, and notes nothing. Takes no memory.
    ///
    /// A call that was open is noted as open still, but is no longer the pass's last. Where there is no greater number, the
    /// number stays.
    pub fn pass_over(&mut self, book: &Book<N>, pass: &mut Pass<N>)
        requires { Agrees self.old pass.old }
        ensures event { Event N.shape N.told self.old pass.old [] [] self.new pass.new }
        ensures same { self.new ≡ self.old }
        ensures calls { pass.new.calls ≡ min (pass.old.calls + 1) (2 ^ 32 - 1) }
    {
        self.renew(book, pass);
        pass.calls = pass.calls.saturating_add(1);
    }
}
