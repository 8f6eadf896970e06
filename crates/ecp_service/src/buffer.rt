ghost use Rattle.std.specs.Prelude.{◌≡◌, ◌≤◌, [], length, IfOk, OnOk};
ghost use Rattle.ecp_service.specs.Sinks.{Delivers, Writes};

use crate::writing::push_all;
use ecp_store::{Failed, NoMemory, Sink};
use std::alloc::Global;
use std::marker::Model;

/// How many bytes are gathered before they go to a sink: 64 KiB.
pub(crate) const ROOM: usize = 65_536;

/// Bytes on their way to a sink. All its memory is taken at its making.
#[derive(Debug, Drop)]
pub(crate) struct Buffer {
    bytes: Vec<u8>,
}

impl Model for Buffer {
    ghost use Rattle.std.specs.Prelude.{ℕ, List, ◌≤◌, vec_len, vec_capacity};
    ghost use Rattle.ecp_service.specs.declared.buffer.TheConstants.{ROOM};

    ghost Value = { List ℕ };

    ghost view = { λ buffer. buffer.bytes.items };

    ghost invariant = { λ buffer. (ROOM ≤ vec_capacity buffer.bytes) × (vec_len buffer.bytes ≤ ROOM) };
}

impl Buffer {
    /// A buffer with nothing in it.
    pub(crate) fn new(alloc: Global) -> Result<Self, NoMemory>
        ensures { IfOk result (λ buffer. buffer ≡ []) }
    {
        Ok(Buffer {
            bytes: Vec::with_capacity(alloc, ROOM)?,
        })
    }

    /// Sends what is in it.
    fn send<W: Sink>(&mut self, sink: &mut W) -> Result<(), Failed>
        ensures empty { OnOk result (self.new ≡ []) }
        ensures sends { Writes W.Sink result (sink.old, self.old) (sink.new, self.new) [] }
    {
        push_all(sink, &self.bytes)?;
        self.bytes.clear();
        Ok(())
    }

    /// Adds a text of at most 64 KiB at its end, and first sends what is in it where the text finds no room.
    pub(crate) fn write<W: Sink>(&mut self, sink: &mut W, text: &[u8]) -> Result<(), Failed>
        requires { length text.now ≤ ROOM }
        ensures { Writes W.Sink result (sink.old, self.old) (sink.new, self.new) text.now }
    {
        if text.len() > ROOM - self.bytes.len() {
            self.send(sink)?;
        }
        self.bytes.extend_from_slice(text).unwrap();
        Ok(())
    }

    /// Sends what is in it, and flushes the sink. After a failure the sink has a beginning of it.
    pub(crate) fn finish<W: Sink>(mut self, sink: &mut W) -> Result<(), Failed>
        ensures { Delivers W.Sink result sink.old sink.new self }
    {
        self.send(sink)?;
        sink.flush()
    }
}
