ghost use Rattle.std.specs.Prelude.{◌≡◌, IsTrue};
ghost use Rattle.ecp_slice.specs.OneFile.{three_rows};
ghost use Rattle.ecp_node.specs.Nodes.{start_of};

mod fetching;
mod kept_row;

use super::*;
use ecp_book::{Blank, Names};
use ecp_store::{MemStore, Store};
use kept_row::KeptRow;
use std::alloc::Global;
use std::marker::Brand;
use std::process::Abort;
use std::test::Fail;

#[test]
fn a_message_is_taken_or_refused_by_its_cause(rt: HostRuntime) -> Result<(), Fail> {
    let alloc = rt.alloc();
    let blank = Blank::new(alloc, 2)?;
    let store = MemStore::new(alloc, Vec::new(alloc))?;
    each_cause::<Brand, _, _>(&rt, alloc, blank, store)
}

fn each_cause<N: Names, S: Store + Drop, R: Abort>(
    rt: &R,
    alloc: Global,
    blank: Blank,
    store: S,
) -> Result<(), Fail>
    requires book { blank ≡ N.book }
    requires shape { N.shape ≡ three_rows 2 }
    requires tells { IsTrue S.tells }
    requires start { start_of N.stores 0 ≡ record { faults = S.faults store; faultless = S.faultless store } }
{
    let mut kept = KeptRow::<N, S>::new(alloc, blank, store)?;
    let mut assembly = kept.renewed(alloc, 5, 1, 2)?;
    for (repair, attempt, slice, answer) in [
        (4, 2, 0, Accepted::Foreign(5)),
        (5, 1, 0, Accepted::Stale(2)),
        (5, 2, 0, Accepted::Taken),
        (5, 2, 0, Accepted::Repeat(0)),
    ] {
        assert_eq!(rt;
            kept.give(alloc, &mut assembly, repair, attempt, slice)?,
            answer
        );
    }
    let Err(mut assembly) = assembly.complete() else {
        return Err("a slice is missing".into());
    };
    assert_eq!(rt; kept.give(alloc, &mut assembly, 5, 2, 1)?, Accepted::Taken);
    let Ok(block) = assembly.complete() else {
        return Err("every slice is there".into());
    };
    assert_eq!(rt; block.bytes(), [0x41, 0x42].as_slice());
    Ok(())
}
