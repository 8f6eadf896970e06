ghost use Rattle.std.specs.Prelude.{◌≡◌, ℕ, ◌<◌, ◌≤◌, ◌==◌, Bool, true, false, List, [], length, IfOk, OnOk, OnErr, IsTrue};
ghost use Rattle.std.specs.Io.KnownBytes.{ReadConsumes};
ghost use Rattle.ecp_store.specs.Edge.{StdSourceState};
ghost use Rattle.ecp_store.specs.Faults.{one_more};

use crate::{Failed, Source};
use std::io::Read;
use std::marker::Model;

/// A source over any reader, as the standard input. It tells nothing of its bytes.
///
/// Each error of the reader is a failure of that call, an interrupted read too, and is not tried again
/// here. A read of 0 bytes is the end: the reader is not asked again after it.
#[derive(Debug, Drop)]
pub struct StdSource<R> {
    reader: R,
    ended: bool,
    faults: u64,
}

impl<R> Model for StdSource<R> {
    ghost Value = { StdSourceState R };

    ghost view = { λ source. record { reader = source.reader; ended = source.ended; faults = source.faults } };
}

impl<R: Read> StdSource<R> {
    /// A source over the reader, with no fault so far.
    pub fn new(reader: R) -> Self
        ensures { result ≡ record { reader = reader; ended = false; faults = 0 } }
    {
        StdSource {
            reader,
            ended: false,
            faults: 0,
        }
    }
}

impl<R: Read> Source for StdSource<R> {
    ghost tells = { false };

    ghost left = { λ _. [] };

    ghost ended = { λ source. source.ended };

    ghost faults = { λ source. source.faults };

    fn pull(&mut self, buf: &mut [u8]) -> Result<usize, Failed>
        requires { 0 < length buf.old }

        // Where the reader states its bytes, what it gave is what came.
        ensures bytes { self.old.ended ≡ false → ReadConsumes (R.remaining self.old.reader) (R.remaining self.new.reader) result buf.new }
        ensures within { IfOk result (λ m. m ≤ length buf.new) }
        ensures ends { IfOk result (λ m. self.new.ended ≡ (m == 0)) }
        ensures again { IsTrue self.old.ended → result ≡ Ok 0 }
        ensures stays { IsTrue self.old.ended → self.new ≡ self.old }
        ensures ok { OnOk result (self.new.faults ≡ self.old.faults) }
        ensures not_ended { OnErr result (self.new.ended ≡ false) }
        ensures err { OnErr result (self.new.faults ≡ one_more self.old.faults) }
    {
        if self.ended {
            return Ok(0);
        }
        match self.reader.read(buf) {
            Ok(count) => {
                self.ended = count == 0;
                Ok(count)
            }
            Err(_) => {
                self.faults = self.faults.saturating_add(1);
                Err(Failed)
            }
        }
    }
}
