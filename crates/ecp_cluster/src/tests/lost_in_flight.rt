//! A helper that goes down while a slice is held up at it.
ghost use Rattle.std.specs.Prelude.{◌≡◌, IsTrue};
ghost use Rattle.ecp_book.specs.Logs.{logs_of};
ghost use Rattle.ecp_sequencer.specs.Passes.{IsWhole};
ghost use Rattle.ecp_cluster.specs.Opening.{AreStarts};

use super::held::Held;
use super::sizes::{LOGS_OF_WIDE, SPARE, THREE_CALLERS, WIDE, opened_behind, two_stores};
use crate::{Answer, Closed, NoMemory, Pass, Service};
use ecp_book::{Blank, Names};
use ecp_entry::{Act, Line, Part};
use ecp_store::Store;
use std::alloc::Global;
use std::marker::Brand;
use std::process::Abort;
use std::sync::Wait;
use std::test::Fail;
use std::thread::{Threads, join};

#[test]
#[tactic(auto, using(crate::proofs::OpenLaws::starts_are))]
fn a_helper_is_lost_in_flight(rt: HostRuntime) -> Result<(), Fail> {
    let alloc = rt.alloc();
    let blank = Blank::new(alloc, LOGS_OF_WIDE)?;
    let mut stores = two_stores(alloc)?;
    stores.append(&mut two_stores(alloc)?)?;
    in_flight::<Brand, _, _>(&rt, alloc, blank, stores)
}

fn in_flight<N: Names + Send + Sync, S: Store + Drop + Send, R: Threads + Wait + Abort + Sync>(
    rt: &R,
    alloc: Global,
    blank: Blank,
    stores: Vec<S>,
) -> Result<(), Fail>
    requires book { (blank ≡ N.book) × (logs_of blank ≡ LOGS_OF_WIDE) }
    requires names { (N.callers ≡ THREE_CALLERS) × (N.spare_hands ≡ SPARE) × (N.shape ≡ WIDE) }
    requires tells { IsTrue S.tells }
    requires stores { AreStarts S.faults S.faultless N.stores 4 stores.items }
{
    let gate = Held::new(1, 0, 1, 1);
    let (service, mut passes) = opened_behind::<N, S, &Held>(alloc, blank, WIDE, stores, &gate)?;
    let other = passes.pop().ok_or("caller 2")?;
    let reader = passes.pop().ok_or("caller 1")?;
    let first = passes.pop().ok_or("caller 0")?;
    stores_and_loses(rt, &service, first)?;
    reads_through_a_loss(rt, &service, reader, other)?;
    assert!(rt; gate.has_held());
    is_served_anew(rt, service.close(rt, passes))
}

/// Caller 0 stores two blocks, and loses the node of the first.
fn stores_and_loses<N: Names, S: Store + Drop, R: Abort + Wait>(
    rt: &R,
    service: &Service<N, S, &Held>,
    mut pass: Pass<N>,
) -> Result<(), Fail>
    requires whole { IsWhole pass }
{
    let put = service.put(rt, &mut pass, "a", &[0x41, 0x42, 0x43, 0x44])?;
    let stored = Act::Stored {
        first: 0,
        stripes: 1,
        up: 0b1111,
    };
    assert_eq!(rt; put, stored);
    assert_eq!(rt; service.lose(rt, &mut pass, 0)?, Act::Lost(1));
    Ok(())
}

/// Caller 1 reads the lost block, and caller 2 loses a helper of this read.
fn reads_through_a_loss<
    N: Names + Send + Sync,
    S: Store + Drop + Send,
    R: Threads + Wait + Abort + Sync,
>(rt: &R, service: &Service<N, S, &Held>, reader: Pass<N>, other: Pass<N>) -> Result<(), Fail>
    requires reader { IsWhole reader }
    requires other { IsWhole other }
{
    let (answer, lost) = join(
        rt,
        move ||
            requires { IsWhole reader }
        { reads(rt, service, reader) },
        move ||
            requires { IsWhole other }
        { loses(rt, service, other) },
    );
    let answer = answer?;
    assert_eq!(rt; lost?, Act::Lost(1));
    assert_eq!(rt; answer.act, Act::Data);
    assert_eq!(rt; answer.bytes.bytes(), [0x41, 0x42].as_slice());
    Ok(())
}

fn reads<N: Names, S: Store + Drop, R: Wait>(
    rt: &R,
    service: &Service<N, S, &Held>,
    mut pass: Pass<N>,
) -> Result<Answer, NoMemory>
    requires whole { IsWhole pass }
{
    let answer = service.read(rt, &mut pass, "a", 0);
    service.gate.let_go();
    answer
}

/// Loses the node at which the read is held up.
fn loses<N: Names, S: Store + Drop, R: Wait>(
    rt: &R,
    service: &Service<N, S, &Held>,
    mut pass: Pass<N>,
) -> Result<Act, NoMemory>
    requires whole { IsWhole pass }
{
    service.gate.await_it(rt);
    let act = service.lose(rt, &mut pass, 1);
    service.gate.let_go();
    act
}

/// The read ended behind the loss, and nodes 2 and 3 served its second attempt.
fn is_served_anew<S: Store + Drop, R: Abort>(rt: &R, closed: Closed<S>) -> Result<(), Fail> {
    let Closed { journal, stores } = closed;
    assert_eq!(rt; journal.len(), 4);
    let read = Line {
        caller: 1,
        call: 0,
        part: Part::End,
        point: 3,
        act: Act::Data,
    };
    assert_eq!(rt; *journal.line(3), read);
    let mut served = stores.iter().map(|store| store.served());
    assert_eq!(rt; (served.next(), served.next()), (Some(0), Some(1)));
    assert_eq!(rt; (served.next(), served.next()), (Some(3), Some(2)));
    assert_eq!(rt; served.next(), None);
    Ok(())
}
