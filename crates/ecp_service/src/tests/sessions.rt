//! Sessions that run at once.
ghost use Rattle.std.specs.Prelude.{false, true};

use super::*;
use ecp_helper::Gate;
use ecp_store::Store;
use std::sync::atomic::{AtomicU64, Ordering};
use std::thread::yield_now;

/// What a run of these lines behind a head leaves on its output, and its stores.
fn left<R: Abort + Threads + Wait + Sync, G: Gate + Sync>(
    rt: &R,
    alloc: Global,
    head: &'static [u8],
    lines: &'static [u8],
    gate: &G,
) -> Result<(Vec<u8>, Vec<MemStore>), Fail> {
    let mut bytes = head.to_vec(alloc)?;
    bytes.extend_from_slice(lines)?;
    let mut input = MemSource::new(bytes, 65_536, Vec::new(alloc));
    let mut out = MemSink::new(alloc, 4096, 65_536, Vec::new(alloc))?;
    let mut diag = MemSink::new(alloc, 4096, 65_536, Vec::new(alloc))?;
    let words = words_of(alloc, "run")?;
    let given = stores_in_memory(alloc)?;
    let (status, stores) = top(
        rt, alloc, &words, &mut input, &mut out, &mut diag, given, gate,
    );
    assert_eq!(rt; status, DONE);
    Ok((out.bytes().to_vec(alloc)?, stores))
}

/// How many lines of a text are this one.
fn count_of(text: &[u8], line: &[u8]) -> usize {
    text.split(|b| *b == b'\n')
        .filter(|other| *other == line)
        .count()
}

/// Each of four sessions puts a file of its own. Then node 0 is lost, and each reads the first block of its file.
const FOUR_SESSIONS: &[u8] = b"\
    put a hex 4142\n\
    session 1\n\
    put b hex 4142\n\
    session 2\n\
    put c hex 4142\n\
    session 3\n\
    put d hex 4142\n\
    barrier\n\
    session 0\n\
    lose 0\n\
    barrier\n\
    read a 0\n\
    session 1\n\
    read b 0\n\
    session 2\n\
    read c 0\n\
    session 3\n\
    read d 0\n\
    ";

fn each_reads<R: Abort + Threads + Wait + Sync>(
    rt: &R,
    alloc: Global,
    head: &'static [u8],
) -> Result<(), Fail> {
    let (out, stores) = left(rt, alloc, head, FOUR_SESSIONS, &OpenGate)?;
    assert_eq!(rt; count_of(&out, b"data 41"), 4);
    assert_eq!(rt; count_of(&out, b"lost 4"), 1);
    assert_eq!(rt; count_of(&out, b"journal 9"), 1);
    let served = stores
        .iter()
        .fold(0u64, |sum, store| sum.saturating_add(store.served()));
    assert_eq!(rt; served, 5);
    Ok(())
}

#[test]
fn four_sessions_read_after_a_loss(rt: HostRuntime) -> Result<(), Fail> {
    each_reads(
        &rt,
        rt.alloc(),
        b"k = 2\nn = 4\nnodes = 4\nblock = 1\nworkers = 0\n---\n",
    )
}

#[test]
fn four_sessions_read_after_a_loss_while_workers_turn_the_helpers(
    rt: HostRuntime,
) -> Result<(), Fail> {
    each_reads(
        &rt,
        rt.alloc(),
        b"k = 2\nn = 4\nnodes = 4\nblock = 1\nworkers = 2\n---\n",
    )
}

/// After so many questions a gate holds nothing, so that a run of one session after another ends. The test fails then.
const MAX_QUESTIONS: u64 = 1_000_000;

/// Holds every message up, until it was asked about two repairs.
#[derive(Drop)]
struct Both {
    /// A bit for each repair that it was asked about.
    repairs: AtomicU64,
    questions: AtomicU64,
}

impl Gate for Both {
    ghost is_open = { λ _. false };

    ghost shuts = { λ _ _. true };

    fn go(&self, _node: u8, repair: u64, _attempt: u32, _slice: u32) -> bool {
        let asked = 1u64 << (repair % 64);
        let repairs = self.repairs.fetch_or(asked, Ordering::SeqCst) | asked;
        let before = self.questions.fetch_add(1, Ordering::SeqCst);
        if repairs != asked || before >= MAX_QUESTIONS {
            return true;
        }
        yield_now();
        false
    }
}

#[test]
fn the_sessions_of_a_phase_run_at_the_same_time(rt: HostRuntime) -> Result<(), Fail> {
    let gate = Both {
        repairs: AtomicU64::new(0),
        questions: AtomicU64::new(0),
    };
    let (out, _) = left(
        &rt,
        rt.alloc(),
        b"k = 1\nn = 2\nnodes = 2\nblock = 1\n---\n",
        b"\
        put a hex 41\n\
        session 1\n\
        put b hex 42\n\
        barrier\n\
        session 0\n\
        read a 0\n\
        session 1\n\
        read b 0\n\
        ",
        &gate,
    )?;
    assert_eq!(rt; count_of(&out, b"data 41"), 1);
    assert_eq!(rt; count_of(&out, b"data 42"), 1);
    assert!(rt; gate.questions.load(Ordering::SeqCst) < MAX_QUESTIONS);
    Ok(())
}
