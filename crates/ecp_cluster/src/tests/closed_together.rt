//! A worked caller: two callers in threads of their own lose nodes, and the service is closed.
ghost use Rattle.std.specs.Prelude.{◌≡◌, All, ℕ, ◌<◌, IsTrue, length, slice_index_or};
ghost use Rattle.ecp_book.specs.Logs.{logs_of};
ghost use Rattle.ecp_sequencer.specs.Passes.{IsWhole, PassState, first_passes};
ghost use Rattle.ecp_sequencer.specs.Rounds.{Finished, Worked};
ghost use Rattle.ecp_cluster.specs.Opening.{AreStarts};

use super::sizes::{CALLERS, LOGS, SHAPE, SPARE, opened, two_stores};
use crate::{Closed, Pass, Service};
use ecp_book::{Blank, Names};
use ecp_helper::Gate;
use ecp_store::Store;
use std::alloc::Global;
use std::marker::Brand;
use std::process::Abort;
use std::sync::Wait;
use std::test::Fail;
use std::thread::{self, Threads};

/// A caller loses both nodes, and one that is not there. A call that finds no memory is passed over.
fn work<N: Names, S: Store, G: Gate, R: Wait>(
    rt: &R,
    service: &Service<N, S, G>,
    pass: &mut Pass<N>,
)
    requires { IsWhole pass.old }
    ensures { Worked pass.old pass.new }
{
    let _ = service.lose(rt, pass, 0);
    let _ = service.lose(rt, pass, 1);
    let _ = service.lose(rt, pass, 2);
}

/// Each caller works in a thread of its own.
fn work_all<N: Names + Send + Sync, S: Store + Send, G: Gate + Sync, R: Threads + Wait + Sync>(
    rt: &R,
    service: &Service<N, S, G>,
    passes: &mut [Pass<N>],
)
    requires whole { All IsWhole passes.old }
    ensures worked { (k : ℕ) (p : PassState) → k < length passes.old → Worked (slice_index_or passes.old k p) (slice_index_or passes.new k p) }
    ensures whole { All IsWhole passes.new }
{
    thread::for_each_mut(
        rt,
        passes,
        2,
        &|_, pass: &mut Pass<N>|
            requires { IsWhole pass.now }
            ensures { Worked pass.entry.now pass.exit.now }
        { work(rt, service, pass) },
    );
}

/// The journal of two callers: one legal history, with just the entries that each pass counted.
fn finished<
    N: Names + Send + Sync,
    S: Store + Drop + Send,
    G: Gate + Drop + Sync,
    R: Threads + Wait + Sync,
>(rt: &R, service: Service<N, S, G>, mut passes: Vec<Pass<N>>) -> Closed<S>
    requires names { (N.callers ≡ CALLERS) × (N.spare_hands ≡ SPARE) }
    requires passes { passes.items ≡ first_passes 1 2 }
    ensures { Finished N.shape N.told 1 2 result.journal.lines }
{
    work_all(rt, &service, passes.as_mut_slice());
    service.close(rt, passes)
}

#[test]
#[tactic(auto, using(crate::proofs::OpenLaws::starts_are))]
fn two_threads_lose_nodes_in_one_history(rt: HostRuntime) -> Result<(), Fail> {
    let alloc = rt.alloc();
    let blank = Blank::new(alloc, LOGS)?;
    let stores = two_stores(alloc)?;
    lost_together::<Brand, _, _>(&rt, alloc, blank, stores)
}

fn lost_together<N: Names + Send + Sync, S: Store + Drop + Send, R: Threads + Wait + Abort + Sync>(
    rt: &R,
    alloc: Global,
    blank: Blank,
    stores: Vec<S>,
) -> Result<(), Fail>
    requires book { (blank ≡ N.book) × (logs_of blank ≡ LOGS) }
    requires names { (N.callers ≡ CALLERS) × (N.spare_hands ≡ SPARE) × (N.shape ≡ SHAPE) }
    requires tells { IsTrue S.tells }
    requires stores { AreStarts S.faults S.faultless N.stores 2 stores.items }
{
    let (service, passes) = opened::<N, S>(alloc, blank, stores)?;
    let closed = finished(rt, service, passes);
    assert_eq!(rt; (closed.journal.len(), closed.stores.len()), (6, 2));
    Ok(())
}
