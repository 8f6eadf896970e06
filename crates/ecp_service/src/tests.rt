mod checks;
mod files;
mod generated;
mod scripts;
mod served;
mod sessions;

use super::*;
use ecp_helper::OpenGate;
use ecp_shape::limits::{MAX_INPUT, MAX_NODES};
use ecp_store::{MemSink, MemSource, MemStore};
use std::alloc::{AllocError, Global};
use std::process::Abort;
use std::sync::Wait;
use std::test::Fail;
use std::thread::Threads;

const USAGE: &[u8] = b"usage: ecpipe run | run-dir PATH | mend K N ROW | check | soak SEED\n";

/// The head of the scripts.
const SCRIPT_HEAD: &[u8] = b"k = 2\nn = 3\nnodes = 3\nblock = 1\n---\n";

/// A run, with the most bytes that a call of its source and sinks moves and the calls that fail, and what it leaves.
#[derive(Clone, Copy)]
struct Run {
    words: &'static str,
    head: &'static [u8],
    input: &'static [u8],
    piece: usize,
    failing_pulls: &'static [u64],
    failing_pushes: &'static [u64],
    status: u8,
    out: &'static [u8],
    diag: &'static [u8],
}

const DONE_RUN: Run = Run {
    words: "mend 2 3 2",
    head: b"",
    input: b"AB",
    piece: 65_536,
    failing_pulls: &[],
    failing_pushes: &[],
    status: DONE,
    out: b"G",
    diag: b"",
};

impl Run {
    /// The input: its head, and what stands behind it.
    fn bytes(&self, alloc: Global) -> Result<Vec<u8>, AllocError> {
        let mut bytes = self.head.to_vec(alloc)?;
        bytes.extend_from_slice(self.input)?;
        Ok(bytes)
    }
}

fn words_of(alloc: Global, line: &str) -> Result<Vec<String>, AllocError> {
    let mut words = Vec::new(alloc);
    for word in line.split(' ') {
        words.push(word.to_string(alloc)?)?;
    }
    Ok(words)
}

fn leaves<R: Threads + Wait + Sync>(
    rt: &R,
    alloc: Global,
    run: &Run,
    bytes: Vec<u8>,
) -> Result<bool, Fail> {
    let (as_said, _) = ran(rt, alloc, run, bytes)?;
    Ok(as_said)
}

/// Whether the run leaves what it says, and its stores.
fn ran<R: Threads + Wait + Sync>(
    rt: &R,
    alloc: Global,
    run: &Run,
    bytes: Vec<u8>,
) -> Result<(bool, Vec<MemStore>), Fail> {
    let piece = run.piece.max(1);
    let mut input = MemSource::new(bytes, piece, run.failing_pulls.to_vec(alloc)?);
    let mut out = MemSink::new(alloc, 4096, piece, run.failing_pushes.to_vec(alloc)?)?;
    let mut diag = MemSink::new(alloc, 4096, piece, Vec::new(alloc))?;
    let words = words_of(alloc, run.words)?;
    let given = stores_in_memory(alloc)?;
    let (status, stores) = top(
        rt, alloc, &words, &mut input, &mut out, &mut diag, given, &OpenGate,
    );
    let as_said = status == run.status && out.bytes() == run.out && diag.bytes() == run.diag;
    Ok((as_said, stores))
}

fn row(words: &'static str, input: &'static [u8], out: &'static [u8]) -> Run {
    Run {
        words,
        input,
        out,
        ..DONE_RUN
    }
}

fn stop(words: &'static str, status: u8, diag: &'static [u8]) -> Run {
    Run {
        words,
        status,
        out: b"",
        diag,
        ..DONE_RUN
    }
}

fn each_leaves<R: Abort + Threads + Wait + Sync>(
    rt: &R,
    alloc: Global,
    runs: &[Run],
) -> Result<(), Fail> {
    for (at, run) in runs.iter().enumerate() {
        for piece in [1, 3, 65_536] {
            let run = Run { piece, ..*run };
            let bytes = run.bytes(alloc)?;
            assert!(rt; leaves(rt, alloc, &run, bytes)?, "run {at} by {piece}");
        }
    }
    Ok(())
}

#[test]
fn rebuilds_every_row_in_any_pieces(rt: HostRuntime) -> Result<(), Fail> {
    let runs = [
        row("mend 2 3 0", b"AB", b"A"),
        row("mend 2 3 1", b"AB", b"B"),
        row("mend 2 3 2", b"AB", b"G"),
        row("mend 2 3 1", b"", b""),
        row("mend 1 2 1", b"xyz", b"xyz"),
        row("mend 3 5 0", &[1, 2, 3], &[1]),
        row("mend 3 5 1", &[1, 2, 3], &[2]),
        row("mend 3 5 2", &[1, 2, 3], &[3]),
        row("mend 3 5 3", &[1, 2, 3], &[0]),
        row("mend 3 5 4", &[1, 2, 3], &[0x15]),
        row("mend 4 6 0", b"ABCDEFG", b"AB"),
        row("mend 4 6 1", b"ABCDEFG", b"CD"),
        row("mend 4 6 2", b"ABCDEFG", b"EF"),
        row("mend 4 6 3", b"ABCDEFG", b"G\0"),
        row("mend 4 6 4", b"ABCDEFG", &[0x49, 0x03]),
        row("mend 4 6 5", b"ABCDEFG", &[0x4b, 0x98]),
        row("mend 10 14 0", b"0123456789", b"0"),
        row("mend 10 14 9", b"0123456789", b"9"),
        row("mend 10 14 13", b"0123456789", b"="),
    ];
    each_leaves(&rt, rt.alloc(), &runs)
}

#[test]
fn says_why_it_stops(rt: HostRuntime) -> Result<(), Fail> {
    let read_fault = stop("mend 2 3 2", 5, b"input: read fault\n");
    let runs = [
        stop("mend 3 3 0", 2, USAGE),
        stop("mend 2 3 02", 2, USAGE),
        stop("mend 2 3", 2, USAGE),
        Run {
            failing_pulls: &[0],
            ..read_fault
        },
        Run {
            failing_pulls: &[1],
            ..read_fault
        },
        Run {
            failing_pushes: &[0],
            ..stop("mend 2 3 2", WRITE_FAULT, b"")
        },
    ];
    each_leaves(&rt, rt.alloc(), &runs)
}

/// Whether an input of so many bytes is too long for a run: one of comment bytes behind its head.
fn is_too_long<R: Threads + Wait + Sync>(
    rt: &R,
    alloc: Global,
    run: &Run,
    len: usize,
) -> Result<bool, Fail> {
    let mut bytes = run.bytes(alloc)?;
    bytes.resize(len, b'#')?;
    leaves(rt, alloc, run, bytes)
}

const TOO_LONG: Run = Run {
    words: "run",
    status: 8,
    out: b"",
    diag: b"input: too long\n",
    ..DONE_RUN
};

#[test]
fn an_input_one_byte_past_its_limit_is_too_long(rt: HostRuntime) -> Result<(), Fail> {
    assert!(rt; is_too_long(&rt, rt.alloc(), &TOO_LONG, MAX_INPUT + 1)?);
    Ok(())
}

#[test]
fn a_long_input_is_too_long_to_mend(rt: HostRuntime) -> Result<(), Fail> {
    let run = Run {
        words: "mend 4 6 5",
        input: b"",
        ..TOO_LONG
    };
    assert!(rt; is_too_long(&rt, rt.alloc(), &run, 16_777_218)?);
    assert!(rt; is_too_long(&rt, rt.alloc(), &run, 16_777_300)?);
    Ok(())
}

#[test]
fn a_long_input_with_a_bad_head_is_too_long(rt: HostRuntime) -> Result<(), Fail> {
    let run = Run {
        input: b"k = 0\n---\n",
        ..TOO_LONG
    };
    assert!(rt; is_too_long(&rt, rt.alloc(), &run, 16_777_218)?);
    assert!(rt; is_too_long(&rt, rt.alloc(), &run, 16_777_300)?);
    Ok(())
}

#[test]
fn a_long_script_of_comments_is_too_long(rt: HostRuntime) -> Result<(), Fail> {
    let run = Run {
        head: SCRIPT_HEAD,
        input: b"# a comment\n",
        ..TOO_LONG
    };
    assert!(rt; is_too_long(&rt, rt.alloc(), &run, 16_777_218)?);
    assert!(rt; is_too_long(&rt, rt.alloc(), &run, 16_777_300)?);
    Ok(())
}
