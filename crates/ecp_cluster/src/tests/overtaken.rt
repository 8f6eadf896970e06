//! Puts whose nodes are lost meanwhile: no row of them stays.
ghost use Rattle.std.specs.Prelude.{◌≡◌, false};
ghost use Rattle.ecp_book.specs.Logs.{logs_of};
ghost use Rattle.ecp_sequencer.specs.Passes.{IsWhole};
ghost use Rattle.ecp_cluster.specs.Opening.{AreStarts};

use super::sizes::{CALLERS, LOGS, SHAPE, SPARE, opened};
use super::tally::{Tally, kept};
use crate::{Pass, Service};
use ecp_book::{Blank, Names};
use ecp_entry::{Act, Deed, Name};
use ecp_helper::OpenGate;
use std::alloc::Global;
use std::marker::Brand;
use std::process::Abort;
use std::sync::Wait;
use std::test::Fail;

#[test]
#[tactic(auto, using(crate::proofs::OpenLaws::starts_are))]
fn rows_of_an_overtaken_put_are_removed(rt: HostRuntime) -> Result<(), Fail> {
    let alloc = rt.alloc();
    let blank = Blank::new(alloc, LOGS)?;
    let mut stores = Vec::with_capacity(alloc, 2)?;
    stores.push(Tally::new())?;
    stores.push(Tally::new())?;
    overtaken::<Brand, _>(&rt, alloc, blank, stores)
}

fn overtaken<N: Names, R: Abort + Wait>(
    rt: &R,
    alloc: Global,
    blank: Blank,
    stores: Vec<Tally>,
) -> Result<(), Fail>
    requires book { (blank ≡ N.book) × (logs_of blank ≡ LOGS) }
    requires names { (N.callers ≡ CALLERS) × (N.spare_hands ≡ SPARE) × (N.shape ≡ SHAPE) }
    requires told { N.told ≡ false }
    requires stores { AreStarts (λ _. 0) (λ _. false) N.stores 2 stores.items }
{
    let (service, mut passes) = opened::<N, Tally>(alloc, blank, stores)?;
    let mut pass = passes.pop().ok_or("caller 1")?;
    let mut other = passes.pop().ok_or("caller 0")?;
    is_overtaken(rt, &service, &mut pass, &mut other)?;
    let stores = service.close(rt, passes).stores;
    assert_eq!(rt; kept(&stores), 0);
    Ok(())
}

fn is_overtaken<N: Names, R: Abort + Wait>(
    rt: &R,
    service: &Service<N, Tally, OpenGate>,
    pass: &mut Pass<N>,
    other: &mut Pass<N>,
) -> Result<(), Fail>
    requires whole { IsWhole pass.old }
    requires other { IsWhole other.old }
{
    let name = Name::new("a");
    service.begin(rt, pass, Deed::Put { name, len: 1 })?;
    let Ok(mut res) = service.reserve(rt, pass, "a", 1) else {
        return Err("places".into());
    };
    let Ok(rows) = service.keep_rows(rt, &res, &[0x41]) else {
        return Err("rows".into());
    };
    assert_eq!(rt; service.lose(rt, other, 0)?, Act::Lost(0));
    let act = service.publish(rt, pass, &mut res, rows, &[0x41]);
    assert!(rt; act.is_none());
    Ok(())
}

#[test]
#[tactic(auto, using(crate::proofs::OpenLaws::starts_are))]
fn rows_of_a_put_whose_node_is_gone_are_removed(rt: HostRuntime) -> Result<(), Fail> {
    let alloc = rt.alloc();
    let blank = Blank::new(alloc, LOGS)?;
    let mut stores = Vec::with_capacity(alloc, 2)?;
    stores.push(Tally::new())?;
    stores.push(Tally::new())?;
    gone::<Brand, _>(&rt, alloc, blank, stores)
}

fn gone<N: Names, R: Abort + Wait>(
    rt: &R,
    alloc: Global,
    blank: Blank,
    stores: Vec<Tally>,
) -> Result<(), Fail>
    requires book { (blank ≡ N.book) × (logs_of blank ≡ LOGS) }
    requires names { (N.callers ≡ CALLERS) × (N.spare_hands ≡ SPARE) × (N.shape ≡ SHAPE) }
    requires told { N.told ≡ false }
    requires stores { AreStarts (λ _. 0) (λ _. false) N.stores 2 stores.items }
{
    let (service, mut passes) = opened::<N, Tally>(alloc, blank, stores)?;
    let mut pass = passes.pop().ok_or("caller 1")?;
    let mut other = passes.pop().ok_or("caller 0")?;
    goes_on_with_too_few(rt, &service, &mut pass, &mut other)?;
    let stores = service.close(rt, passes).stores;
    assert_eq!(rt; kept(&stores), 0);
    Ok(())
}

fn goes_on_with_too_few<N: Names, R: Abort + Wait>(
    rt: &R,
    service: &Service<N, Tally, OpenGate>,
    pass: &mut Pass<N>,
    other: &mut Pass<N>,
) -> Result<(), Fail>
    requires whole { IsWhole pass.old }
    requires other { IsWhole other.old }
{
    let name = Name::new("a");
    service.begin(rt, pass, Deed::Put { name, len: 1 })?;
    let Ok(res) = service.reserve(rt, pass, "a", 1) else {
        return Err("places".into());
    };
    assert_eq!(rt; service.lose(rt, other, 1)?, Act::Lost(0));
    let act = service.put_by(rt, pass, res, &[0x41])?;
    assert_eq!(rt; act, Act::TooFewNodes(1));
    Ok(())
}
