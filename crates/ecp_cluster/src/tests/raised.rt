//! A pass that is raised by the front of another.
ghost use Rattle.std.specs.Prelude.{◌≡◌, IsTrue};
ghost use Rattle.ecp_book.specs.Logs.{logs_of};
ghost use Rattle.ecp_cluster.specs.Opening.{AreStarts};

use super::sizes::{CALLERS, LOGS, SHAPE, SPARE, opened, two_stores};
use crate::{Pass, Service};
use ecp_book::{Blank, Names};
use ecp_entry::Act;
use ecp_helper::OpenGate;
use ecp_store::Store;
use std::alloc::Global;
use std::marker::Brand;
use std::process::Abort;
use std::sync::Wait;
use std::test::Fail;

#[test]
#[tactic(auto, using(crate::proofs::OpenLaws::starts_are))]
fn a_raised_pass_knows_of_the_call_of_another(rt: HostRuntime) -> Result<(), Fail> {
    let alloc = rt.alloc();
    let blank = Blank::new(alloc, LOGS)?;
    let stores = two_stores(alloc)?;
    raised::<Brand, _, _>(&rt, alloc, blank, stores)
}

fn raised<N: Names, S: Store + Drop, R: Abort + Wait>(
    rt: &R,
    alloc: Global,
    blank: Blank,
    stores: Vec<S>,
) -> Result<(), Fail>
    requires book { (blank ≡ N.book) × (logs_of blank ≡ LOGS) }
    requires names { (N.callers ≡ CALLERS) × (N.spare_hands ≡ SPARE) × (N.shape ≡ SHAPE) }
    requires tells { IsTrue S.tells }
    requires stores { AreStarts S.faults S.faultless N.stores 2 stores.items }
{
    let (service, mut passes) = opened::<N, S>(alloc, blank, stores)?;
    let mut one = passes.pop().ok_or("caller 1")?;
    let mut other = passes.pop().ok_or("caller 0")?;
    assert_eq!(rt; service.lose(rt, &mut one, 0)?, Act::Lost(0));
    is_raised(rt, &service, &mut one, &mut other)
}

fn is_raised<N: Names, S: Store + Drop, R: Abort>(
    rt: &R,
    service: &Service<N, S, OpenGate>,
    one: &mut Pass<N>,
    other: &mut Pass<N>,
) -> Result<(), Fail> {
    assert_eq!(rt; service.front(other).len(), 0);
    let mut front = service.front(one);
    service.raise(other, &mut front);
    assert_eq!(rt; service.front(other).len(), 1);
    Ok(())
}
