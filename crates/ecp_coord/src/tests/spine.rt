//! A worked caller: two callers in threads of their own, who share the coordinator under a lock.
ghost use Rattle.std.specs.Prelude.{◌≡◌, ℕ, ◌<◌, All, length, IfOk, OnOk, OnErr, slice_index_or};
ghost use Rattle.ecp_entry.specs.declared.deed.Deed.TheVariants.{Lose};
ghost use Rattle.ecp_sequencer.specs.Passes.{IsWhole, PassState, first_passes};
ghost use Rattle.ecp_sequencer.specs.Rounds.{Began, Worked, Raised, Finished};
ghost use Rattle.ecp_coord.specs.Rounds.{CalledLose};

use super::{CALLERS, SPARE};
use crate::{Coord, NoMemory, NodeAct, Pass};
use ecp_book::{Book, Names};
use ecp_entry::Deed;
use ecp_history::Journal;
use std::sync::{Mutex, Wait};
use std::thread::{self, Threads};

/// How many calls a caller makes in a round.
const CALLS: u32 = 3;

/// Begins a call that loses a node.
fn begin<N: Names, R: Wait>(
    rt: &R,
    book: &Book<N>,
    shared: &Mutex<Coord<N>>,
    pass: &mut Pass<N>,
    node: u32,
) -> Result<(), NoMemory>
    requires { IsWhole pass.old }
    ensures ok { OnOk result (Began pass.old (Lose node) pass.new) }
    ensures err { OnErr result (Worked pass.old pass.new) }
{
    let _number = pass.calls();
    let mut coord = shared.lock(rt);
    coord.begin(book, pass, Deed::Lose { node })
}

/// A call that loses a node.
fn lose<N: Names, R: Wait>(
    rt: &R,
    book: &Book<N>,
    shared: &Mutex<Coord<N>>,
    pass: &mut Pass<N>,
    node: u32,
) -> Result<NodeAct, NoMemory>
    requires { IsWhole pass.old }
    ensures ok { IfOk result (λ found. CalledLose N.shape N.told pass.old node found pass.new) }
    ensures err { OnErr result (Worked pass.old pass.new) }
{
    begin(rt, book, shared, pass, node)?;
    let mut coord = shared.lock(rt);
    Ok(coord.lose(book, pass, node))
}

/// Several such calls. One that finds no memory is passed over.
///
/// The first stands before the loop: with it the pass knows that its front has all its entries.
fn work<N: Names, R: Wait>(
    rt: &R,
    book: &Book<N>,
    shared: &Mutex<Coord<N>>,
    pass: &mut Pass<N>,
    node: u32,
)
    requires { IsWhole pass.old }
    ensures { Worked pass.old pass.new }
{
    let _ = lose(rt, book, shared, pass, node);
    for _ in 1..CALLS {
        let _ = lose(rt, book, shared, pass, node);
    }
}

/// Each caller works in a thread of its own.
fn round<N: Names + Send + Sync, R: Threads + Wait + Sync>(
    rt: &R,
    book: &Book<N>,
    shared: &Mutex<Coord<N>>,
    passes: &mut [Pass<N>],
    node: u32,
)
    requires whole { All IsWhole passes.old }
    ensures worked { (k : ℕ) (p : PassState) → k < length passes.old → Worked (slice_index_or passes.old k p) (slice_index_or passes.new k p) }
    ensures whole { All IsWhole passes.new }
{
    thread::for_each_mut(
        rt,
        passes,
        2,
        &|_, pass: &mut Pass<N>|
            requires { IsWhole pass.now }
            ensures { Worked pass.entry.now pass.exit.now }
        { work(rt, book, shared, pass, node) },
    );
}

/// Raises each pass to the front of the first.
fn raise_all<N: Names>(book: &Book<N>, passes: &mut [Pass<N>])
    requires whole { All IsWhole passes.old }
    ensures raised { (k : ℕ) (p : PassState) → k < length passes.old → Raised (slice_index_or passes.old k p) (slice_index_or passes.new k p) }
    ensures whole { All IsWhole passes.new }
{
    if passes.is_empty() {
        return;
    }
    let mut front = passes[0].front(book);
    for at in 0..passes.len() {
        passes[at].raise(book, &mut front);
    }
}

/// Two rounds, with all passes raised between them.
fn rounds<N: Names + Send + Sync, R: Threads + Wait + Sync>(
    rt: &R,
    book: &Book<N>,
    shared: &Mutex<Coord<N>>,
    passes: &mut [Pass<N>],
)
    requires whole { All IsWhole passes.old }
    ensures { (k : ℕ) (p : PassState) → k < length passes.old → Worked (slice_index_or passes.old k p) (slice_index_or passes.new k p) }
{
    round(rt, book, shared, passes, 0);
    raise_all(book, passes);
    round(rt, book, shared, passes, 2);
}

/// The journal of two callers: one legal history, with just the entries that each pass counted.
#[tactic(auto, using(crate::proofs::SpineLaws::firsts_whole))]
pub(super) fn finished<N: Names + Send + Sync, R: Threads + Wait + Sync>(
    rt: &R,
    book: &Book<N>,
    coord: Coord<N>,
    mut passes: Vec<Pass<N>>,
) -> Journal
    requires names { (N.callers ≡ CALLERS) × (N.spare_hands ≡ SPARE) }
    requires passes { passes.items ≡ first_passes 1 2 }
    ensures { Finished N.shape N.told 1 2 result.lines }
{
    let shared = Mutex::new(coord);
    rounds(rt, book, &shared, passes.as_mut_slice());
    shared.into_inner().close(book, passes)
}
