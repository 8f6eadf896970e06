//! Files that are stored and read, and each refusal of a put.
ghost use Rattle.std.specs.Prelude.{◌≡◌, IsTrue};
ghost use Rattle.ecp_book.specs.Logs.{logs_of};
ghost use Rattle.ecp_sequencer.specs.Passes.{IsWhole};
ghost use Rattle.ecp_cluster.specs.Opening.{AreStarts};

use super::sizes::{
    CALLERS, FOUR, LOGS, LOGS_OF_FOUR, SHAPE, SPARE, opened, opened_as, two_stores,
};
use crate::{Pass, Service};
use ecp_book::{Blank, Names};
use ecp_entry::Act;
use ecp_helper::OpenGate;
use ecp_store::Store;
use std::alloc::Global;
use std::marker::Brand;
use std::process::Abort;
use std::sync::Wait;
use std::test::Fail;

#[test]
#[tactic(auto, using(crate::proofs::OpenLaws::starts_are))]
fn a_block_is_read_while_it_is_live_and_when_it_is_lost(rt: HostRuntime) -> Result<(), Fail> {
    let alloc = rt.alloc();
    let blank = Blank::new(alloc, LOGS_OF_FOUR)?;
    let mut stores = two_stores(alloc)?;
    stores.append(&mut two_stores(alloc)?)?;
    read_twice::<Brand, _, _>(&rt, alloc, blank, stores)
}

fn read_twice<N: Names, S: Store + Drop, R: Abort + Wait>(
    rt: &R,
    alloc: Global,
    blank: Blank,
    stores: Vec<S>,
) -> Result<(), Fail>
    requires book { (blank ≡ N.book) × (logs_of blank ≡ LOGS_OF_FOUR) }
    requires names { (N.callers ≡ CALLERS) × (N.spare_hands ≡ SPARE) × (N.shape ≡ FOUR) }
    requires tells { IsTrue S.tells }
    requires stores { AreStarts S.faults S.faultless N.stores 4 stores.items }
{
    let (service, mut passes) = opened_as::<N, S>(alloc, blank, FOUR, stores)?;
    let mut pass = passes.pop().ok_or("caller 1")?;
    stores_a_file(rt, &service, &mut pass)?;
    reads_live(rt, &service, &mut pass)?;
    reads_lost(rt, &service, &mut pass)?;
    let served = service
        .close(rt, passes)
        .stores
        .iter()
        .fold(0u64, |sum, store| sum.saturating_add(store.served()));
    assert_eq!(rt; served, 4);
    Ok(())
}

fn stores_a_file<N: Names, S: Store + Drop, R: Abort + Wait>(
    rt: &R,
    service: &Service<N, S, OpenGate>,
    pass: &mut Pass<N>,
) -> Result<(), Fail>
    requires whole { IsWhole pass.old }
    ensures whole { IsWhole pass.new }
{
    let put = service.put(rt, pass, "a", &[0x41, 0x42, 0x43])?;
    let stored = Act::Stored {
        first: 0,
        stripes: 2,
        up: 0b1111,
    };
    assert_eq!(rt; put, stored);
    Ok(())
}

fn reads_live<N: Names, S: Store + Drop, R: Abort + Wait>(
    rt: &R,
    service: &Service<N, S, OpenGate>,
    pass: &mut Pass<N>,
) -> Result<(), Fail>
    requires whole { IsWhole pass.old }
    ensures whole { IsWhole pass.new }
{
    let live = service.read(rt, pass, "a", 0)?;
    assert_eq!(rt; live.bytes.bytes(), [0x41].as_slice());
    let last = service.read(rt, pass, "a", 2)?;
    assert_eq!(rt; last.bytes.bytes(), [0x43].as_slice());
    Ok(())
}

fn reads_lost<N: Names, S: Store + Drop, R: Abort + Wait>(
    rt: &R,
    service: &Service<N, S, OpenGate>,
    pass: &mut Pass<N>,
) -> Result<(), Fail>
    requires whole { IsWhole pass.old }
    ensures whole { IsWhole pass.new }
{
    assert_eq!(rt; service.lose(rt, pass, 0)?, Act::Lost(2));
    let lost = service.read(rt, pass, "a", 0)?;
    assert_eq!(rt; lost.act, Act::Data);
    assert_eq!(rt; lost.bytes.bytes(), [0x41].as_slice());
    Ok(())
}

#[test]
#[tactic(auto, using(crate::proofs::OpenLaws::starts_are))]
fn a_put_that_is_refused_says_why(rt: HostRuntime) -> Result<(), Fail> {
    let alloc = rt.alloc();
    let blank = Blank::new(alloc, LOGS)?;
    let stores = two_stores(alloc)?;
    refused::<Brand, _, _>(&rt, alloc, blank, stores)
}

fn refused<N: Names, S: Store + Drop, R: Abort + Wait>(
    rt: &R,
    alloc: Global,
    blank: Blank,
    stores: Vec<S>,
) -> Result<(), Fail>
    requires book { (blank ≡ N.book) × (logs_of blank ≡ LOGS) }
    requires names { (N.callers ≡ CALLERS) × (N.spare_hands ≡ SPARE) × (N.shape ≡ SHAPE) }
    requires tells { IsTrue S.tells }
    requires stores { AreStarts S.faults S.faultless N.stores 2 stores.items }
{
    let (service, mut passes) = opened::<N, S>(alloc, blank, stores)?;
    let mut pass = passes.pop().ok_or("caller 1")?;
    refuses_a_taken_name(rt, &service, &mut pass)?;
    refuses_too_few_nodes(rt, &service, &mut pass)?;
    assert_eq!(rt; service.close(rt, passes).journal.len(), 4);
    Ok(())
}

fn refuses_a_taken_name<N: Names, S: Store + Drop, R: Abort + Wait>(
    rt: &R,
    service: &Service<N, S, OpenGate>,
    pass: &mut Pass<N>,
) -> Result<(), Fail>
    requires whole { IsWhole pass.old }
    ensures whole { IsWhole pass.new }
{
    let stored = Act::Stored {
        first: 0,
        stripes: 0,
        up: 0b11,
    };
    assert_eq!(rt; service.put(rt, pass, "a", &[])?, stored);
    assert_eq!(rt; service.put(rt, pass, "a", &[0x41])?, Act::NameTaken);
    Ok(())
}

fn refuses_too_few_nodes<N: Names, S: Store + Drop, R: Abort + Wait>(
    rt: &R,
    service: &Service<N, S, OpenGate>,
    pass: &mut Pass<N>,
) -> Result<(), Fail>
    requires whole { IsWhole pass.old }
    ensures whole { IsWhole pass.new }
{
    assert_eq!(rt; service.lose(rt, pass, 0)?, Act::Lost(0));
    let put = service.put(rt, pass, "b", &[0x41])?;
    assert_eq!(rt; put, Act::TooFewNodes(1));
    Ok(())
}
