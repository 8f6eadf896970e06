ghost use Rattle.std.specs.Prelude.{◌≡◌, ℕ, ◌<◌, ◌≤◌, Bool, false, List, [], length, IfOk, OnOk, OnErr};
ghost use Rattle.std.specs.Io.KnownBytes.{WriteAppends, Keeps};
ghost use Rattle.ecp_store.specs.Edge.{StdSinkState};
ghost use Rattle.ecp_store.specs.Faults.{one_more};

use crate::{Failed, Sink};
use std::io::Write;
use std::marker::Model;

/// A sink over any writer, as the standard output. It tells nothing of its bytes.
///
/// Each error of the writer is a failure of that call, an interrupted write too, and is not tried again
/// here. So is a write of 0 bytes.
#[derive(Debug, Drop)]
pub struct StdSink<W> {
    writer: W,
    faults: u64,
}

impl<W> Model for StdSink<W> {
    ghost Value = { StdSinkState W };

    ghost view = { λ sink. record { writer = sink.writer; faults = sink.faults } };
}

impl<W: Write> StdSink<W> {
    /// A sink over the writer, with no fault so far.
    pub fn new(writer: W) -> Self
        ensures { result ≡ record { writer = writer; faults = 0 } }
    {
        StdSink { writer, faults: 0 }
    }

    // Counts one more fault.
    fn fault(&mut self) -> Failed
        ensures { self.new ≡ record self.old { faults = one_more self.old.faults } }
    {
        self.faults = self.faults.saturating_add(1);
        Failed
    }
}

impl<W: Write> Sink for StdSink<W> {
    ghost tells = { false };

    ghost appended = { λ _. [] };

    ghost flushed = { λ _. 0 };

    ghost faults = { λ sink. sink.faults };

    fn push(&mut self, bytes: &[u8]) -> Result<usize, Failed>
        requires { 0 < length bytes.now }

        // Where the writer states its bytes, they grow by what was taken, and by nothing at a failure.
        ensures bytes { WriteAppends (W.contents self.old.writer) (W.contents self.new.writer) result bytes.now }
        ensures some { IfOk result (λ m. 1 ≤ m) }
        ensures within { IfOk result (λ m. m ≤ length bytes.now) }
        ensures ok { OnOk result (self.new.faults ≡ self.old.faults) }
        ensures err { OnErr result (self.new.faults ≡ one_more self.old.faults) }
    {
        match self.writer.write(bytes) {
            Ok(0) | Err(_) => Err(self.fault()),
            Ok(count) => Ok(count),
        }
    }

    fn flush(&mut self) -> Result<(), Failed>
        ensures bytes { Keeps (W.contents self.old.writer) (W.contents self.new.writer) }
        ensures ok { OnOk result (self.new.faults ≡ self.old.faults) }
        ensures err { OnErr result (self.new.faults ≡ one_more self.old.faults) }
    {
        match self.writer.flush() {
            Ok(()) => Ok(()),
            Err(_) => Err(self.fault()),
        }
    }
}
