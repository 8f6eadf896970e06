//! A block whose helper goes down in the middle of its fetch.
ghost use Rattle.std.specs.Prelude.{◌≡◌, ◌<◌, IsTrue};
ghost use Rattle.ecp_book.specs.Logs.{logs_of};
ghost use Rattle.ecp_coord.specs.Plans.{IsPlanned};
ghost use Rattle.ecp_requestor.specs.Crews.{Replans};
ghost use Rattle.ecp_sequencer.specs.Passes.{IsWhole};
ghost use Rattle.ecp_cluster.specs.Opening.{AreStarts};

use super::sizes::{
    CALLERS, FOUR, LOGS_OF_FOUR, LOGS_OF_THREE, SPARE, THREE, opened_as, two_stores,
};
use crate::{Pass, Service};
use ecp_book::{Blank, Book, Names};
use ecp_coord::{Ask, Replanned};
use ecp_entry::{Act, Deed, Name};
use ecp_helper::OpenGate;
use ecp_plan::Plan;
use ecp_requestor::{Crew, Fetched, fetch};
use ecp_store::{MemStore, Store};
use std::alloc::Global;
use std::marker::{Brand, Model};
use std::process::Abort;
use std::sync::{Mutex, Wait};
use std::test::Fail;

/// A crew that has another caller lose node 1 before that node's first turn.
#[derive(Drop)]
struct Losing<'a, N: Names, S: Store + Drop> {
    service: &'a Service<N, S, OpenGate>,
    other: Mutex<Option<Own<N>>>,
}

/// A pass that is its caller's own.
#[derive(Drop)]
struct Own<N: Names> {
    pass: Pass<N>,
}

impl<N: Names> Model for Own<N> {
    ghost use Rattle.ecp_sequencer.specs.Passes.{IsWhole, PassState};

    ghost Value = { PassState };

    ghost view = { λ o. o.pass };

    ghost invariant = { λ o. IsWhole o.pass };
}

impl<'a, N: Names, S: Store + Drop> Crew<N> for Losing<'a, N, S> {
    fn turn<R: Wait>(&self, rt: &R, node: u8)
        requires { node < N.shape.nodes }
    {
        if node == 1
            && let Some(Own { pass: mut other }) = self.other.lock(rt).take()
        {
            let _ = self.service.lose(rt, &mut other, 1);
        }
        self.service.turn(rt, node);
    }

    fn replan<R: Wait>(
        &self,
        rt: &R,
        book: &Book<N>,
        pass: &mut Pass<N>,
        plan: &mut Plan<N>,
    ) -> Replanned
        requires { IsPlanned N.shape N.told pass.old plan.old }
        ensures { Replans N.shape N.told pass.old plan.old plan.new pass.new result }
    {
        self.service.replan(rt, book, pass, plan)
    }
}

/// Stores 41 42, loses node 0, and fetches block 0 while node 1 goes down too.
fn fetched<N: Names, S: Store + Drop, R: Abort + Wait>(
    rt: &R,
    alloc: Global,
    service: &Service<N, S, OpenGate>,
    pass: &mut Pass<N>,
    other: Pass<N>,
) -> Result<Fetched<N>, Fail>
    requires whole { IsWhole pass.old }
    requires other { IsWhole other }
{
    service.put(rt, pass, "a", &[0x41, 0x42])?;
    service.lose(rt, pass, 0)?;
    let name = Name::new("a");
    service.begin(rt, pass, Deed::Read { name, index: 0 })?;
    let ask = Ask::Read {
        name: "a",
        index: 0,
    };
    let Ok(plan) = service.plan_read(rt, pass, ask) else {
        return Err("plan".into());
    };
    let crew = Losing {
        service,
        other: Mutex::new(Some(Own { pass: other })),
    };
    let port = service.ports.get(1).ok_or("port 1")?;
    let mut port = port.lock(rt);
    Ok(fetch(
        rt,
        alloc,
        &service.book,
        &crew,
        pass,
        plan,
        &mut port,
        service.window,
    )?)
}

#[test]
#[tactic(auto, using(crate::proofs::OpenLaws::starts_are))]
fn a_fetch_goes_on_with_the_rows_that_are_left(rt: HostRuntime) -> Result<(), Fail> {
    let alloc = rt.alloc();
    let blank = Blank::new(alloc, LOGS_OF_FOUR)?;
    let mut stores = two_stores(alloc)?;
    stores.append(&mut two_stores(alloc)?)?;
    goes_on::<Brand, _, _>(&rt, alloc, blank, stores)
}

fn goes_on<N: Names, S: Store + Drop, R: Abort + Wait>(
    rt: &R,
    alloc: Global,
    blank: Blank,
    stores: Vec<S>,
) -> Result<(), Fail>
    requires book { (blank ≡ N.book) × (logs_of blank ≡ LOGS_OF_FOUR) }
    requires names { (N.callers ≡ CALLERS) × (N.spare_hands ≡ SPARE) × (N.shape ≡ FOUR) }
    requires tells { IsTrue S.tells }
    requires stores { AreStarts S.faults S.faultless N.stores 4 stores.items }
{
    let (service, mut passes) = opened_as::<N, S>(alloc, blank, FOUR, stores)?;
    let mut pass = passes.pop().ok_or("caller 1")?;
    let other = passes.pop().ok_or("caller 0")?;
    let Fetched::Whole(plan, block) = fetched(rt, alloc, &service, &mut pass, other)? else {
        return Err("the block".into());
    };
    assert_eq!(rt; block.bytes(), [0x41].as_slice());
    assert_eq!(rt; (plan.attempt, plan.point), (2, 3));
    assert_eq!(rt; (plan.voids.len, plan.voids.at[0]), (1, 2));
    let mut hops = plan.hops.iter().map(|hop| (hop.row, hop.weight));
    assert_eq!(rt; (hops.next(), hops.next()), (Some((2, 3)), Some((3, 2))));
    Ok(())
}

#[test]
#[tactic(auto, using(crate::proofs::OpenLaws::starts_are))]
fn a_fetch_ends_where_too_few_rows_are_left(rt: HostRuntime) -> Result<(), Fail> {
    let alloc = rt.alloc();
    let blank = Blank::new(alloc, LOGS_OF_THREE)?;
    let mut stores = two_stores(alloc)?;
    stores.push(MemStore::new(alloc, Vec::new(alloc))?)?;
    ends::<Brand, _, _>(&rt, alloc, blank, stores)
}

fn ends<N: Names, S: Store + Drop, R: Abort + Wait>(
    rt: &R,
    alloc: Global,
    blank: Blank,
    stores: Vec<S>,
) -> Result<(), Fail>
    requires book { (blank ≡ N.book) × (logs_of blank ≡ LOGS_OF_THREE) }
    requires names { (N.callers ≡ CALLERS) × (N.spare_hands ≡ SPARE) × (N.shape ≡ THREE) }
    requires tells { IsTrue S.tells }
    requires stores { AreStarts S.faults S.faultless N.stores 3 stores.items }
{
    let (service, mut passes) = opened_as::<N, S>(alloc, blank, THREE, stores)?;
    let mut pass = passes.pop().ok_or("caller 1")?;
    let other = passes.pop().ok_or("caller 0")?;
    let found = fetched(rt, alloc, &service, &mut pass, other)?;
    assert!(rt; matches!(found, Fetched::Unrecoverable(1)));
    let journal = service.close(rt, passes).journal;
    assert_eq!(rt; journal.len(), 4);
    Ok(())
}
