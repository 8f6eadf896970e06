//! The sizes and the live blocks of a file.
ghost use Rattle.std.specs.Prelude.{◌≡◌, IsTrue};
ghost use Rattle.ecp_book.specs.Logs.{logs_of};
ghost use Rattle.ecp_sequencer.specs.Passes.{IsWhole};
ghost use Rattle.ecp_cluster.specs.Opening.{AreStarts};

use super::sizes::{CALLERS, LOGS_OF_THREE, SPARE, THREE, opened_as, two_stores};
use crate::{Pass, Service};
use ecp_book::{Blank, Names};
use ecp_entry::Act;
use ecp_helper::OpenGate;
use ecp_store::{MemStore, Store};
use std::alloc::Global;
use std::marker::Brand;
use std::process::Abort;
use std::sync::Wait;
use std::test::Fail;

#[test]
#[tactic(auto, using(crate::proofs::OpenLaws::starts_are))]
fn live_blocks_of_whole_stripes_are_counted(rt: HostRuntime) -> Result<(), Fail> {
    let alloc = rt.alloc();
    let blank = Blank::new(alloc, LOGS_OF_THREE)?;
    let mut stores = two_stores(alloc)?;
    stores.push(MemStore::new(alloc, Vec::new(alloc))?)?;
    counted::<Brand, _, _>(&rt, alloc, blank, stores)
}

fn counted<N: Names, S: Store + Drop, R: Abort + Wait>(
    rt: &R,
    alloc: Global,
    blank: Blank,
    stores: Vec<S>,
) -> Result<(), Fail>
    requires book { (blank ≡ N.book) × (logs_of blank ≡ LOGS_OF_THREE) }
    requires names { (N.callers ≡ CALLERS) × (N.spare_hands ≡ SPARE) × (N.shape ≡ THREE) }
    requires tells { IsTrue S.tells }
    requires stores { AreStarts S.faults S.faultless N.stores 3 stores.items }
{
    let (service, mut passes) = opened_as::<N, S>(alloc, blank, THREE, stores)?;
    let mut pass = passes.pop().ok_or("caller 1")?;
    states_an_empty_file(rt, &service, &mut pass)?;
    states_a_file(rt, &service, &mut pass)?;
    assert_eq!(rt; service.stat(rt, &mut pass, "b")?, Act::NoSuchFile);
    assert_eq!(rt; service.close(rt, passes).journal.len(), 8);
    Ok(())
}

fn states_an_empty_file<N: Names, S: Store + Drop, R: Abort + Wait>(
    rt: &R,
    service: &Service<N, S, OpenGate>,
    pass: &mut Pass<N>,
) -> Result<(), Fail>
    requires whole { IsWhole pass.old }
    ensures whole { IsWhole pass.new }
{
    service.put(rt, pass, "e", &[])?;
    let read = service.read(rt, pass, "e", 0)?;
    assert_eq!(rt; read.act, Act::NoSuchBlock(0));
    assert_eq!(rt; service.stat(rt, pass, "e")?, stat(0, 0, 0));
    Ok(())
}

fn states_a_file<N: Names, S: Store + Drop, R: Abort + Wait>(
    rt: &R,
    service: &Service<N, S, OpenGate>,
    pass: &mut Pass<N>,
) -> Result<(), Fail>
    requires whole { IsWhole pass.old }
    ensures whole { IsWhole pass.new }
{
    service.put(rt, pass, "a", &[0x41, 0x42, 0x43])?;
    assert_eq!(rt; service.stat(rt, pass, "a")?, stat(3, 3, 6));
    service.lose(rt, pass, 0)?;
    assert_eq!(rt; service.stat(rt, pass, "a")?, stat(3, 3, 4));
    Ok(())
}

fn stat(len: u32, count: u32, live: u32) -> Act {
    Act::Stat { len, count, live }
}
