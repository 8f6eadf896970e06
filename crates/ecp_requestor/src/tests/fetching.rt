ghost use Rattle.std.specs.Prelude.{◌≡◌, IsTrue};
ghost use Rattle.ecp_node.specs.Nodes.{start_of};
ghost use Rattle.ecp_slice.specs.OneFile.{three_rows};

use super::kept_row::KeptRow;
use crate::{Fetched, Port};
use ecp_book::{Blank, Names};
use ecp_link::{Pushed, Sender, Taker, link};
use ecp_slice::SliceMsg;
use ecp_store::{MemStore, Store};
use std::alloc::Global;
use std::marker::Brand;
use std::process::Abort;
use std::test::Fail;

#[test]
fn a_block_comes_home_slice_by_slice(rt: HostRuntime) -> Result<(), Fail> {
    let alloc = rt.alloc();
    let blank = Blank::new(alloc, 2)?;
    let store = MemStore::new(alloc, Vec::new(alloc))?;
    slice_by_slice::<Brand, _, _>(&rt, alloc, blank, store)
}

fn slice_by_slice<N: Names, S: Store + Drop, R: Abort>(
    rt: &R,
    alloc: Global,
    blank: Blank,
    store: S,
) -> Result<(), Fail>
    requires book { blank ≡ N.book }
    requires shape { N.shape ≡ three_rows 2 }
    requires tells { IsTrue S.tells }
    requires start { start_of N.stores 0 ≡ record { faults = S.faults store; faultless = S.faultless store } }
{
    let mut kept = KeptRow::<N, S>::new(alloc, blank, store)?;
    let Ends {
        mut port,
        mut at_node,
        mut to_home,
    } = wired::<N>(alloc)?;
    let mut errand = kept.errand(alloc)?;
    for last in [false, true] {
        assert!(rt; !errand.exchange(kept.book(), &mut port));
        let mut message = at_node.pop().ok_or("a message for the node")?;
        assert!(rt; at_node.pop().is_none());
        kept.add_next(&mut message)?;
        assert!(rt; matches!(to_home.push(message), Pushed::Ok));
        assert!(rt; errand.exchange(kept.book(), &mut port));
        assert_eq!(rt; errand.is_complete(), last);
    }
    if !errand.is_complete() {
        return Err("each slice came home".into());
    }
    let Fetched::Whole(plan, block) = errand.whole() else {
        return Err("the block".into());
    };
    assert_eq!(rt; plan.attempt, 1);
    assert_eq!(rt; block.bytes(), [0x41, 0x42].as_slice());
    Ok(())
}

/// A port, and of the node that has the block, what comes to it and its sender home.
#[derive(Drop)]
struct Ends<N: Names> {
    port: Port<N>,
    at_node: Taker<SliceMsg<N>>,
    to_home: Sender<SliceMsg<N>>,
}

fn wired<N: Names>(alloc: Global) -> Result<Ends<N>, Fail>
    requires { N.shape ≡ three_rows 2 }
{
    let mut to_nodes = Vec::with_capacity(alloc, 3)?;
    let (mut sender, at_node) = link(alloc, 1, 1)?;
    to_nodes.push(sender.pop().ok_or("a sender")?)?;
    for _node in 1..3 {
        let (mut sender, _) = link(alloc, 1, 1)?;
        to_nodes.push(sender.pop().ok_or("a sender")?)?;
    }
    if to_nodes.len() != 3 {
        return Err("a sender to each node".into());
    }
    let (mut sender, at_home) = link(alloc, 1, 1)?;
    Ok(Ends {
        port: Port::new(to_nodes, at_home, 0),
        at_node,
        to_home: sender.pop().ok_or("a sender home")?,
    })
}
