ghost use Rattle.std.specs.Prelude.{◌≡◌, length};

use crate::tie::Tie;
use ecp_book::Names;
use std::marker::Model;

/// A hand, as its pass has it: its number, and its end of the tie to the sequencer.
#[derive(Drop)]
pub(crate) struct Hand<N: Names> {
    pub(crate) number: u8,
    pub(crate) tie: Tie<N>,
}

impl<N: Names> Model for Hand<N> {
    ghost use Rattle.std.specs.Prelude.{◌≡◌};
    ghost use Rattle.ecp_sequencer.specs.Hands.{spoken_log, heard_log};
    ghost use Rattle.ecp_sequencer.specs.Passes.{HandNotes};

    ghost Value = { HandNotes };

    ghost view = { λ h. record { hand = h.number; notes = h.tie.items } };

    ghost invariant = { λ h. (h.tie.speaks ≡ spoken_log N.shape.nodes h.number) × (h.tie.hears ≡ heard_log N.shape.nodes h.number) };
}

impl<N: Names> Hand<N> {
    /// Its number.
    pub(crate) fn number(&self) -> u8
        ensures { result ≡ self.now.hand }
    {
        self.number
    }

    /// How many notes it made.
    pub(crate) fn len(&self) -> u32
        ensures { result ≡ length self.now.notes }
    {
        self.tie.len()
    }
}
