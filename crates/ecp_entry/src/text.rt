ghost use Rattle.std.specs.Prelude.{◌≡◌, ℕ, List, ◌↔◌, [], length, IsTrue};
ghost use Rattle.std.specs.Str.{IsAscii};

use ecp_store::Block;
use std::marker::Model;

/// The bytes of a name.
#[derive(Debug, Drop)]
pub struct Text {
    bytes: Block,
}

impl Model for Text {
    ghost Value = { List ℕ };

    ghost view = { λ text. text.bytes };
}

impl Text {
    /// The text of these bytes.
    pub fn new(bytes: Vec<u8>) -> Self
        ensures { result ≡ bytes.items }
    {
        Text {
            bytes: Block::new(bytes),
        }
    }

    /// Its bytes, in their order.
    pub fn bytes(&self) -> &[u8]
        ensures { result.now ≡ self.now }
    {
        self.bytes.bytes()
    }

    /// Its bytes as a string, such as [`Name::new`](crate::Name::new) takes. The bytes of every name are ASCII.
    pub fn as_str(&self) -> &str
        requires { IsAscii self.now }
        ensures { result.now ≡ self.now }
    {
        match str::from_utf8(self.bytes()) {
            Ok(text) => text,
            Err(_) => unreachable!(),
        }
    }

    /// How many bytes it has.
    pub fn len(&self) -> usize
        ensures { result ≡ length self.now }
    {
        self.bytes.len()
    }

    pub fn is_empty(&self) -> bool
        ensures { IsTrue result ↔ (self.now ≡ []) }
    {
        self.bytes.is_empty()
    }
}
