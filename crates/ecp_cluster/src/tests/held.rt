//! A gate that holds one message up, for tests in which a call goes on while another is under way.
ghost use Rattle.std.specs.Prelude.{◌==◌, ◌&&◌, false};

use ecp_helper::Gate;
use std::sync::Wait;
use std::sync::atomic::{AtomicBool, AtomicU64, Ordering};
use std::thread::yield_now;

/// After so many questions it holds nothing, so that a test with a wrong body ends. It fails then.
const MAX_QUESTIONS: u64 = 1_000_000;

/// Holds one slice of one attempt of a repair up at one node, until it is let go. It lets every other message on.
#[derive(Drop)]
pub(super) struct Held {
    pub(super) node: u8,
    pub(super) repair: u64,
    pub(super) attempt: u32,
    pub(super) slice: u32,
    questions: AtomicU64,
    has_come: AtomicBool,
    is_let_go: AtomicBool,
}

impl Held {
    /// The message was not asked about, and is not let go.
    pub(super) fn new(node: u8, repair: u64, attempt: u32, slice: u32) -> Held {
        Held {
            node,
            repair,
            attempt,
            slice,
            questions: AtomicU64::new(0),
            has_come: AtomicBool::new(false),
            is_let_go: AtomicBool::new(false),
        }
    }

    /// Lets the message go on, whenever it comes.
    pub(super) fn let_go(&self) {
        self.is_let_go.store(true, Ordering::SeqCst);
    }

    /// Waits until the message has come, or is let go.
    pub(super) fn await_it<R: Wait>(&self, rt: &R) {
        for _ in rt.forever() {
            if self.has_come.load(Ordering::SeqCst) || self.is_let_go.load(Ordering::SeqCst) {
                return;
            }
            yield_now();
        }
    }

    /// Whether the message came, and was let go before there were too many questions.
    pub(super) fn has_held(&self) -> bool {
        self.has_come.load(Ordering::SeqCst)
            && self.questions.load(Ordering::SeqCst) < MAX_QUESTIONS
    }
}

impl Gate for Held {
    ghost is_open = { λ _. false };

    ghost shuts = { λ held asked. (held.node == asked.node) && (held.repair == asked.repair) && (held.attempt == asked.attempt) && (held.slice == asked.slice) };

    fn go(&self, node: u8, repair: u64, attempt: u32, slice: u32) -> bool {
        let before = self.questions.fetch_add(1, Ordering::SeqCst);
        if node != self.node
            || repair != self.repair
            || attempt != self.attempt
            || slice != self.slice
        {
            return true;
        }
        self.has_come.store(true, Ordering::SeqCst);
        if before >= MAX_QUESTIONS || self.is_let_go.load(Ordering::SeqCst) {
            return true;
        }
        yield_now();
        false
    }
}
