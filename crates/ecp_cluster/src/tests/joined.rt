//! Each answer of a call by which a node comes up, and what a lost block is after it.
ghost use Rattle.std.specs.Prelude.{◌≡◌, IsTrue};
ghost use Rattle.ecp_book.specs.Logs.{logs_of};
ghost use Rattle.ecp_cluster.specs.Opening.{AreStarts};

use super::sizes::{CALLERS, LOGS, SHAPE, SPARE, opened, two_stores};
use ecp_book::{Blank, Names};
use ecp_entry::Act;
use ecp_store::Store;
use std::alloc::Global;
use std::marker::Brand;
use std::process::Abort;
use std::sync::Wait;
use std::test::Fail;

#[test]
#[tactic(auto, using(crate::proofs::OpenLaws::starts_are))]
fn what_was_lost_stays_lost_when_its_node_comes_up(rt: HostRuntime) -> Result<(), Fail> {
    let alloc = rt.alloc();
    let blank = Blank::new(alloc, LOGS)?;
    let stores = two_stores(alloc)?;
    joined::<Brand, _, _>(&rt, alloc, blank, stores)
}

fn joined<N: Names, S: Store + Drop, R: Abort + Wait>(
    rt: &R,
    alloc: Global,
    blank: Blank,
    stores: Vec<S>,
) -> Result<(), Fail>
    requires book { (blank ≡ N.book) × (logs_of blank ≡ LOGS) }
    requires names { (N.callers ≡ CALLERS) × (N.spare_hands ≡ SPARE) × (N.shape ≡ SHAPE) }
    requires tells { IsTrue S.tells }
    requires stores { AreStarts S.faults S.faultless N.stores 2 stores.items }
{
    let (service, mut passes) = opened::<N, S>(alloc, blank, stores)?;
    let mut pass = passes.pop().ok_or("caller 1")?;
    assert!(rt;
        matches!(
            service.put(rt, &mut pass, "a", &[0x41])?,
            Act::Stored { .. }
        )
    );
    assert!(rt; matches!(service.join(rt, &mut pass, 0)?, Act::NodeUp));
    assert!(rt; matches!(service.join(rt, &mut pass, 2)?, Act::NoSuchNode));
    assert!(rt; matches!(service.lose(rt, &mut pass, 0)?, Act::Lost(1)));
    assert!(rt; matches!(service.join(rt, &mut pass, 0)?, Act::Joined(1)));
    assert!(rt; matches!(service.lose(rt, &mut pass, 0)?, Act::Lost(0)));
    assert!(rt; matches!(service.join(rt, &mut pass, 0)?, Act::Joined(2)));
    let closed = service.close(rt, passes);
    assert_eq!(rt; (closed.journal.len(), closed.stores.len()), (7, 2));
    Ok(())
}
