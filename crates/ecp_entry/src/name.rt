ghost use Rattle.std.specs.Prelude.{◌≡◌, ◌≤◌, length};
ghost use Rattle.ecp_entry.specs.Filled.{zero_filled};

use ecp_shape::limits::MAX_NAME;
use std::marker::Model;

/// The name of a file: at most [`MAX_NAME`] bytes. It is seen as its first `len` bytes; those behind them are 0.
#[derive(Clone, Copy, Debug, PartialEq, Eq, PartialOrd, Ord)]
pub struct Name {
    pub len: u8,
    pub at: [u8; MAX_NAME],
}

impl Model for Name {
    ghost use Rattle.std.specs.Prelude.{ℕ, List};

    ghost Value = { List ℕ };

    ghost use Rattle.ecp_entry.specs.Names.{named, IsPadded, padded, padded-named};

    ghost view = { named };

    ghost invariant = { IsPadded };

    ghost inverse = { padded };

    ghost inverse_ok = { padded-named };
}

impl Name {
    /// The name that this text is.
    pub fn new(text: &str) -> Self
        requires some { 1 ≤ length text.now }
        requires short { length text.now ≤ MAX_NAME }
        ensures { result ≡ text.now }
    {
        Name {
            len: text.len() as u8,
            at: filled(text.as_bytes()),
        }
    }

    /// Its bytes, in their order.
    pub fn bytes(&self) -> &[u8]
        ensures { result.now ≡ self.now }
    {
        &self.at[..usize::from(self.len)]
    }
}

/// The bytes of a text of a name, with zeros behind them.
fn filled(text: &[u8]) -> [u8; MAX_NAME]
    requires { length text.now ≤ MAX_NAME }
    ensures { result ≡ zero_filled (length text.now) text.now }
{
    let mut at = [0; 64];
    for (i, byte) in text.iter().enumerate() {
        at[i] = *byte;
    }
    at
}
