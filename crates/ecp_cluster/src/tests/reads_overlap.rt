//! Two reads at one node, of which the second is answered while the first is held up.
ghost use Rattle.std.specs.Prelude.{◌≡◌, IsTrue};
ghost use Rattle.ecp_book.specs.Logs.{logs_of};
ghost use Rattle.ecp_sequencer.specs.Passes.{IsWhole};
ghost use Rattle.ecp_cluster.specs.Opening.{AreStarts};

use super::held::Held;
use super::sizes::{LOGS_OF_THREE_CALLERS, SHAPE, SPARE, THREE_CALLERS, opened_behind, two_stores};
use crate::{Answer, Closed, NoMemory, Pass, Service};
use ecp_book::{Blank, Names};
use ecp_entry::Act;
use ecp_store::Store;
use std::alloc::Global;
use std::marker::Brand;
use std::process::Abort;
use std::sync::Wait;
use std::test::Fail;
use std::thread::{Threads, join};

#[test]
#[tactic(auto, using(crate::proofs::OpenLaws::starts_are))]
fn two_reads_are_open_at_once(rt: HostRuntime) -> Result<(), Fail> {
    let alloc = rt.alloc();
    let blank = Blank::new(alloc, LOGS_OF_THREE_CALLERS)?;
    let stores = two_stores(alloc)?;
    overlap::<Brand, _, _>(&rt, alloc, blank, stores)
}

fn overlap<N: Names + Send + Sync, S: Store + Drop + Send, R: Threads + Wait + Abort + Sync>(
    rt: &R,
    alloc: Global,
    blank: Blank,
    stores: Vec<S>,
) -> Result<(), Fail>
    requires book { (blank ≡ N.book) × (logs_of blank ≡ LOGS_OF_THREE_CALLERS) }
    requires names { (N.callers ≡ THREE_CALLERS) × (N.spare_hands ≡ SPARE) × (N.shape ≡ SHAPE) }
    requires tells { IsTrue S.tells }
    requires stores { AreStarts S.faults S.faultless N.stores 2 stores.items }
{
    let gate = Held::new(0, 0, 1, 0);
    let (service, mut passes) = opened_behind::<N, S, &Held>(alloc, blank, SHAPE, stores, &gate)?;
    let second = passes.pop().ok_or("caller 2")?;
    let first = passes.pop().ok_or("caller 1")?;
    let mut pass = passes.pop().ok_or("caller 0")?;
    let stored = service.put(rt, &mut pass, "a", &[0x41])?;
    assert!(rt; matches!(stored, Act::Stored { stripes: 1, .. }));
    read_both(rt, &service, first, second)?;
    assert!(rt; gate.has_held());
    is_served_twice(rt, service.close(rt, passes))
}

/// Both callers read the block.
fn read_both<N: Names + Send + Sync, S: Store + Drop + Send, R: Threads + Wait + Abort + Sync>(
    rt: &R,
    service: &Service<N, S, &Held>,
    first: Pass<N>,
    second: Pass<N>,
) -> Result<(), Fail>
    requires first { IsWhole first }
    requires second { IsWhole second }
{
    let (one, two) = join(
        rt,
        move ||
            requires { IsWhole first }
        { reads(rt, service, first) },
        move ||
            requires { IsWhole second }
        { reads_meanwhile(rt, service, second) },
    );
    is_the_block(rt, one?)?;
    is_the_block(rt, two?)
}

fn reads<N: Names, S: Store + Drop, R: Wait>(
    rt: &R,
    service: &Service<N, S, &Held>,
    mut pass: Pass<N>,
) -> Result<Answer, NoMemory>
    requires whole { IsWhole pass }
{
    let answer = service.read(rt, &mut pass, "a", 0);
    service.gate.let_go();
    answer
}

/// Reads while the other read is held up.
fn reads_meanwhile<N: Names, S: Store + Drop, R: Wait>(
    rt: &R,
    service: &Service<N, S, &Held>,
    pass: Pass<N>,
) -> Result<Answer, NoMemory>
    requires whole { IsWhole pass }
{
    service.gate.await_it(rt);
    reads(rt, service, pass)
}

fn is_the_block<R: Abort>(rt: &R, answer: Answer) -> Result<(), Fail> {
    assert_eq!(rt; answer.act, Act::Data);
    assert_eq!(rt; answer.bytes.bytes(), [0x41].as_slice());
    Ok(())
}

/// The read that began last ended first, and node 0 served both.
fn is_served_twice<S: Store + Drop, R: Abort>(rt: &R, closed: Closed<S>) -> Result<(), Fail> {
    let Closed { journal, stores } = closed;
    assert_eq!(rt; journal.len(), 3);
    assert_eq!(rt; (journal.line(1).caller, journal.line(2).caller), (2, 1));
    let mut served = stores.iter().map(|store| store.served());
    assert_eq!(rt; (served.next(), served.next()), (Some(2), Some(0)));
    Ok(())
}
