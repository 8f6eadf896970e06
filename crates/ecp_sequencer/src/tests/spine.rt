//! A worked caller: two callers in threads of their own, who share the sequencer under a lock.
ghost use Rattle.std.specs.Prelude.{◌≡◌, ℕ, ◌*◌, ◌<◌, ◌≤◌, [], length, IfOk, OnOk, OnErr, slice_index_or, vec_len};
ghost use Rattle.ecp_book.specs.Logs.{empty_log, history_log};
ghost use Rattle.ecp_sequencer.specs.EntryRefs.{entry_of};
ghost use Rattle.ecp_sequencer.specs.Hands.{hands_of};
ghost use Rattle.ecp_sequencer.specs.Passes.{PassState};
ghost use Rattle.ecp_sequencer.specs.Sequencers.{AreTies};
ghost use Rattle.ecp_sequencer.specs.Rounds.{no_node, Began, CalledNone, Worked, Raised, Finished};

use super::{CALLERS, SPARE};
use crate::{EntryRef, NoMemory, Pass, Sequencer};
use ecp_book::{Book, Keeper, Names};
use ecp_entry::{Act, Deed, Line, Part};
use ecp_history::Journal;
use std::alloc::Global;
use std::sync::{Mutex, Wait};
use std::thread::{self, Threads};

/// How many calls a caller makes in a round.
const CALLS: u32 = 3;

/// Looks at the history as it is.
fn look<N: Names, R: Wait>(rt: &R, book: &Book<N>, shared: &Mutex<Sequencer<N>>, pass: &mut Pass<N>)
    ensures { Worked pass.old pass.new }
{
    let mut guard = shared.lock(rt);
    let sequencer = &mut *guard;
    sequencer.meet(book, pass);
    sequencer.renew(book, pass);
}

/// Begins the next call.
fn begin<N: Names, R: Wait>(
    rt: &R,
    book: &Book<N>,
    shared: &Mutex<Sequencer<N>>,
    pass: &mut Pass<N>,
    deed: Deed,
) -> Result<(), NoMemory>
    ensures ok { OnOk result (Began pass.old deed pass.new) }
    ensures err { OnErr result (Worked pass.old pass.new) }
{
    let mut guard = shared.lock(rt);
    let sequencer = &mut *guard;
    sequencer.meet(book, pass);
    sequencer.begin(book, pass, deed)
}

/// A call that names a node that is not there.
fn lose_none<N: Names, R: Wait>(
    rt: &R,
    book: &Book<N>,
    shared: &Mutex<Sequencer<N>>,
    pass: &mut Pass<N>,
    node: u32,
) -> Result<(), NoMemory>
    requires { N.shape.nodes ≤ node }
    ensures ok { OnOk result (CalledNone N.shape N.told pass.old node pass.new) }
    ensures err { OnErr result (Worked pass.old pass.new) }
{
    let call = pass.calls();
    begin(rt, book, shared, pass, Deed::Lose { node })?;
    let mut guard = shared.lock(rt);
    let sequencer = &mut *guard;
    sequencer.meet(book, pass);
    let entry = missing(pass.caller(), call, sequencer.len(), node);
    sequencer.enter(book, pass, &entry);
    Ok(())
}

// The entry of such a call.
fn missing(caller: u8, call: u32, point: u32, node: u32) -> EntryRef<'static>
    ensures { entry_of result ≡ no_node caller call point node }
{
    EntryRef {
        line: Line {
            caller,
            call,
            part: Part::End,
            point,
            act: Act::NoSuchNode,
        },
        deed: Some(Deed::Lose { node }),
        bytes: &[],
    }
}

/// Several such calls. One that finds no memory is passed over.
fn work<N: Names, R: Wait>(
    rt: &R,
    book: &Book<N>,
    shared: &Mutex<Sequencer<N>>,
    pass: &mut Pass<N>,
    node: u32,
)
    requires { N.shape.nodes ≤ node }
    ensures { Worked pass.old pass.new }
{
    look(rt, book, shared, pass);
    for _ in 0..CALLS {
        let _ = lose_none(rt, book, shared, pass, node);
    }
}

/// Each caller works in a thread of its own.
fn round<N: Names + Send + Sync, R: Threads + Wait + Sync>(
    rt: &R,
    book: &Book<N>,
    shared: &Mutex<Sequencer<N>>,
    passes: &mut [Pass<N>],
    node: u32,
)
    requires { N.shape.nodes ≤ node }
    ensures { (k : ℕ) (p : PassState) → k < length passes.old → Worked (slice_index_or passes.old k p) (slice_index_or passes.new k p) }
{
    thread::for_each_mut(
        rt,
        passes,
        usize::from(CALLERS),
        &|_, pass: &mut Pass<N>|
            requires { N.shape.nodes ≤ node }
            ensures { Worked pass.entry.now pass.exit.now }
        { work(rt, book, shared, pass, node) },
    );
}

/// Raises each pass to the front of the first.
fn raise_all<N: Names>(book: &Book<N>, passes: &mut [Pass<N>])
    ensures { (k : ℕ) (p : PassState) → k < length passes.old → Raised (slice_index_or passes.old k p) (slice_index_or passes.new k p) }
{
    if passes.is_empty() {
        return;
    }
    let mut front = passes[0].front(book);
    for at in 0..passes.len() {
        passes[at].raise(book, &mut front);
    }
}

/// Two rounds, with all passes raised between them.
fn rounds<N: Names + Send + Sync, R: Threads + Wait + Sync>(
    rt: &R,
    book: &Book<N>,
    shared: &Mutex<Sequencer<N>>,
    passes: &mut [Pass<N>],
    node: u32,
)
    requires { N.shape.nodes ≤ node }
    ensures { (k : ℕ) (p : PassState) → k < length passes.old → Worked (slice_index_or passes.old k p) (slice_index_or passes.new k p) }
{
    round(rt, book, shared, passes, node);
    raise_all(book, passes);
    round(rt, book, shared, passes, node);
}

/// The journal of two callers, whose calls all name a node that is not there: one legal history, with just the entries
/// that each pass counted.
pub(super) fn finished<N: Names + Send + Sync, R: Threads + Wait + Sync>(
    rt: &R,
    alloc: Global,
    book: &Book<N>,
    history: Keeper<N>,
    ties: Vec<Keeper<N>>,
    node: u32,
) -> Result<Journal, NoMemory>
    requires far { N.shape.nodes ≤ node }
    requires names { (N.callers ≡ CALLERS) × (N.spare_hands ≡ SPARE) }
    requires history { history ≡ empty_log history_log }
    requires ties { AreTies N.shape.nodes 0 ties.items }
    requires count { vec_len ties ≡ 2 * hands_of CALLERS SPARE }
    ensures { IfOk result (λ j. Finished N.shape N.told SPARE CALLERS j.lines) }
{
    let (sequencer, mut passes) = Sequencer::new(alloc, book, history, ties, CALLERS, SPARE)?;
    let shared = Mutex::new(sequencer);
    rounds(rt, book, &shared, passes.as_mut_slice(), node);
    Ok(shared.into_inner().close(book, passes))
}
