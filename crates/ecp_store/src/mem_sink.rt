ghost use Rattle.std.specs.Prelude.{◌≡◌, ℕ, ◌<◌, ◌≤◌, ◌↔◌, ◌++◌, ◌⊎◌, Bool, true, List, [], length, take, vec_len, vec_capacity, IsErr, IfOk, OnOk, OnErr};
ghost use Rattle.ecp_store.specs.Calls.{no_calls, IsListed, after_success, after_failure};
ghost use Rattle.ecp_store.specs.Memory.{MemSinkState, room_left, pushed_count};

use crate::failing_calls::FailingCalls;
use crate::{Failed, NoMemory, Sink};
use std::alloc::Global;
use std::marker::Model;

/// A sink that keeps in memory what is appended, and tells everything.
///
/// Each push moves as many bytes as its piece and the room that is left allow, and fails where there is no
/// room. The calls whose numbers were listed at its making fail too, pushes and flushes counted together.
/// All memory is taken at its making.
#[derive(Debug, Drop)]
pub struct MemSink {
    bytes: Vec<u8>,
    flushed: usize,
    room: usize,
    piece: usize,
    calls: FailingCalls,
}

impl Model for MemSink {
    ghost Value = { MemSinkState };

    ghost view = { λ sink. record { appended = sink.bytes.items; flushed = sink.flushed; room = sink.room; piece = sink.piece; calls = sink.calls } };

    ghost invariant = { λ sink. (vec_len sink.bytes ≤ sink.room) × (sink.room ≤ vec_capacity sink.bytes) × (1 ≤ sink.piece) };
}

impl MemSink {
    /// An empty sink with room for `room` bytes, which moves at most `piece` bytes a call. `fail` has the
    /// numbers of the calls that fail, counted from 0.
    pub fn new(alloc: Global, room: usize, piece: usize, fail: Vec<u64>) -> Result<Self, NoMemory>
        requires { 1 ≤ piece }
        ensures { IfOk result (λ sink. sink ≡ record { appended = []; flushed = 0; room = room; piece = piece; calls = no_calls fail.items }) }
    {
        Ok(MemSink {
            bytes: Vec::with_capacity(alloc, room)?,
            flushed: 0,
            room,
            piece,
            calls: FailingCalls::new(fail),
        })
    }

    /// The bytes that were appended.
    pub fn bytes(&self) -> &[u8]
        ensures { result.now ≡ self.now.appended }
    {
        &self.bytes
    }
}

impl Sink for MemSink {
    ghost tells = { true };

    ghost appended = { λ sink. sink.appended };

    ghost flushed = { λ sink. sink.flushed };

    ghost faults = { λ sink. sink.calls.faults };

    fn push(&mut self, bytes: &[u8]) -> Result<usize, Failed>
        requires { 0 < length bytes.now }

        ensures fails { IsErr result ↔ (IsListed self.old.calls ⊎ (room_left self.old ≡ 0)) }
        ensures some { IfOk result (λ m. 1 ≤ m) }
        ensures count { IfOk result (λ m. m ≡ pushed_count self.old (length bytes.now)) }
        ensures ok { IfOk result (λ m. self.new ≡ record self.old { appended = self.old.appended ++ take m bytes.now; calls = after_success self.old.calls }) }
        ensures err { OnErr result (self.new ≡ record self.old { calls = after_failure self.old.calls }) }
    {
        self.calls.begin()?;
        let count = self
            .piece
            .min(bytes.len())
            .min(self.room - self.bytes.len());
        if count == 0 {
            return Err(self.calls.fault());
        }
        self.bytes.extend_from_slice(&bytes[..count]).unwrap();
        Ok(count)
    }

    fn flush(&mut self) -> Result<(), Failed>
        ensures fails { IsErr result ↔ IsListed self.old.calls }
        ensures ok { OnOk result (self.new ≡ record self.old { flushed = length self.old.appended; calls = after_success self.old.calls }) }
        ensures err { OnErr result (self.new ≡ record self.old { calls = after_failure self.old.calls }) }
    {
        self.calls.begin()?;
        self.flushed = self.bytes.len();
        Ok(())
    }
}
