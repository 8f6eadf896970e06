//! Each call once, with ample memory.
ghost use Rattle.std.specs.Prelude.{◌≡◌};
ghost use Rattle.ecp_book.specs.Logs.{logs_of};

use super::spine::finished;
use super::{CALLERS, LOGS, NODES, SPARE, opened};
use crate::{Pass, Sequencer};
use ecp_book::{Blank, Book, Entered, Names};
use ecp_entry::Deed;
use std::alloc::Global;
use std::marker::Brand;
use std::process::Abort;
use std::sync::Wait;
use std::test::Fail;
use std::thread::Threads;

/// What the layer above notes.
#[derive(Drop)]
pub(super) struct Plan(pub(super) u64);

impl Entered for Plan {
    ghost use Rattle.std.specs.Prelude.{[], ◌∷◌};

    ghost item = { λ p. 3 ∷ p.0 ∷ [] };
}

#[test]
fn a_pass_begins_notes_and_is_raised(rt: HostRuntime) -> Result<(), Fail> {
    let blank = Blank::new(rt.alloc(), LOGS)?;
    both::<Brand, _>(&rt, rt.alloc(), blank)
}

fn both<N: Names, R: Abort>(rt: &R, alloc: Global, blank: Blank) -> Result<(), Fail>
    requires book { (blank ≡ N.book) × (logs_of blank ≡ LOGS) }
    requires names { (N.callers ≡ CALLERS) × (N.spare_hands ≡ SPARE) × (N.shape.nodes ≡ NODES) }
{
    let (book, history, ties) = opened::<N>(alloc, blank)?;
    let (mut sequencer, mut passes) = Sequencer::new(alloc, &book, history, ties, CALLERS, SPARE)?;
    let mut second = passes.pop().ok_or("caller 1")?;
    let mut first = passes.pop().ok_or("caller 0")?;
    noted(&book, &mut sequencer, &mut first)?;
    assert_eq!(rt; (first.caller(), first.calls()), (0, 1));
    raised(&book, &mut first, &mut second);
    assert_eq!(rt; (second.caller(), second.calls()), (1, 0));
    assert_eq!(rt; sequencer.close(&book, passes).len(), 0);
    Ok(())
}

// A call that begins, and two notes.
fn noted<N: Names>(
    book: &Book<N>,
    sequencer: &mut Sequencer<N>,
    pass: &mut Pass<N>,
) -> Result<(), Fail> {
    sequencer.meet(book, pass);
    sequencer.begin(book, pass, Deed::Lose { node: 7 })?;
    sequencer.note_taking(book, pass, &Plan(5))?;
    sequencer.note(book, pass, &Plan(6));
    Ok(())
}

// The one pass is raised to the front of the other.
fn raised<N: Names>(book: &Book<N>, one: &mut Pass<N>, other: &mut Pass<N>) {
    let mut front = one.front(book);
    other.raise(book, &mut front);
    book.end_tag(front);
}

#[test]
fn two_threads_make_one_history(rt: HostRuntime) -> Result<(), Fail> {
    let blank = Blank::new(rt.alloc(), LOGS)?;
    worked::<Brand, _>(&rt, rt.alloc(), blank)
}

fn worked<N: Names + Send + Sync, R: Threads + Wait + Abort + Sync>(
    rt: &R,
    alloc: Global,
    blank: Blank,
) -> Result<(), Fail>
    requires book { (blank ≡ N.book) × (logs_of blank ≡ LOGS) }
    requires names { (N.callers ≡ CALLERS) × (N.spare_hands ≡ SPARE) × (N.shape.nodes ≡ NODES) }
{
    let (book, history, ties) = opened::<N>(alloc, blank)?;
    let journal = finished(rt, alloc, &book, history, ties, 7)?;
    assert_eq!(rt; journal.len(), 12);
    Ok(())
}
