ghost use Rattle.std.specs.Prelude.{◌≡◌, ℕ, ◌<◌, ◌≤◌, ◌↔◌, ◌==◌, Bool, true, List, [], length, take, drop, vec_len, IsErr, IfOk, OnErr};
ghost use Rattle.ecp_store.specs.Calls.{no_calls, IsListed, after_success, after_failure};
ghost use Rattle.ecp_store.specs.Memory.{MemSourceState, pulled_count};

use crate::failing_calls::FailingCalls;
use crate::{Failed, Source};
use std::marker::Model;

/// A source over bytes in memory, which tells everything.
///
/// Each call moves as many bytes as its piece, the buffer and what is left allow. The calls whose numbers
/// were listed at its making fail, and no others. No call takes memory.
#[derive(Debug, Drop)]
pub struct MemSource {
    bytes: Vec<u8>,
    at: usize,
    piece: usize,
    calls: FailingCalls,
}

impl Model for MemSource {
    ghost Value = { MemSourceState };

    ghost view = { λ source. record { left = drop source.at source.bytes.items; piece = source.piece; calls = source.calls } };

    ghost invariant = { λ source. (source.at ≤ vec_len source.bytes) × (1 ≤ source.piece) };
}

impl MemSource {
    /// A source that has these bytes left, and moves at most `piece` bytes a call. `fail` has the numbers of
    /// the calls that fail, counted from 0.
    pub fn new(bytes: Vec<u8>, piece: usize, fail: Vec<u64>) -> Self
        requires { 1 ≤ piece }
        ensures { result ≡ record { left = bytes.items; piece = piece; calls = no_calls fail.items } }
    {
        MemSource {
            bytes,
            at: 0,
            piece,
            calls: FailingCalls::new(fail),
        }
    }
}

impl Source for MemSource {
    ghost tells = { true };

    ghost left = { λ source. source.left };

    ghost ended = { λ source. length source.left == 0 };

    ghost faults = { λ source. source.calls.faults };

    fn pull(&mut self, buf: &mut [u8]) -> Result<usize, Failed>
        requires { 0 < length buf.old }

        ensures fails { IsErr result ↔ IsListed self.old.calls }
        ensures count { IfOk result (λ m. m ≡ pulled_count self.old (length buf.new)) }
        ensures front { IfOk result (λ m. take m buf.new ≡ take m self.old.left) }
        ensures end_only { IfOk result (λ m. m ≡ 0 → self.old.left ≡ []) }
        ensures ok { IfOk result (λ m. self.new ≡ record self.old { left = drop m self.old.left; calls = after_success self.old.calls }) }
        ensures err { OnErr result (self.new ≡ record self.old { calls = after_failure self.old.calls }) }
    {
        self.calls.begin()?;
        let rest = &self.bytes[self.at..];
        let count = self.piece.min(buf.len()).min(rest.len());
        buf[..count].copy_from_slice(&rest[..count]);
        self.at += count;
        Ok(count)
    }
}
