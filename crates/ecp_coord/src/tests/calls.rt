//! Each call once, with ample memory.
ghost use Rattle.std.specs.Prelude.{◌≡◌, IsTrue};
ghost use Rattle.ecp_book.specs.Logs.{logs_of};
ghost use Rattle.ecp_node.specs.Nodes.{start_of};

use super::spine::finished;
use super::{CALLERS, LOGS, Parts, SHAPE, SPARE, opened};
use crate::NodeAct;
use ecp_book::{Blank, Names};
use ecp_entry::Deed;
use ecp_node::Node;
use ecp_store::{MemStore, Store};
use std::alloc::Global;
use std::marker::Brand;
use std::process::Abort;
use std::sync::Wait;
use std::test::Fail;
use std::thread::Threads;

#[test]
fn a_node_is_lost_once_and_only_where_it_is(rt: HostRuntime) -> Result<(), Fail> {
    let blank = Blank::new(rt.alloc(), LOGS)?;
    lost::<Brand, _>(&rt, rt.alloc(), blank)
}

fn lost<N: Names, R: Abort>(rt: &R, alloc: Global, blank: Blank) -> Result<(), Fail>
    requires book { (blank ≡ N.book) × (logs_of blank ≡ LOGS) }
    requires names { (N.callers ≡ CALLERS) × (N.spare_hands ≡ SPARE) × (N.shape ≡ SHAPE) }
{
    let Parts {
        book,
        mut coord,
        mut passes,
        nodes: _,
    } = opened::<N>(alloc, blank)?;
    let mut pass = passes.pop().ok_or("caller 1")?;
    coord.begin(&book, &mut pass, Deed::Lose { node: 0 })?;
    let first = coord.lose(&book, &mut pass, 0);
    coord.begin(&book, &mut pass, Deed::Lose { node: 0 })?;
    let second = coord.lose(&book, &mut pass, 0);
    coord.begin(&book, &mut pass, Deed::Lose { node: 2 })?;
    let third = coord.lose(&book, &mut pass, 2);
    assert_eq!(rt; first, NodeAct::Lost(0));
    assert_eq!(rt; second, NodeAct::NodeDown);
    assert_eq!(rt; third, NodeAct::NoSuchNode);
    assert_eq!(rt; pass.front(&book).len(), 3);
    assert_eq!(rt; coord.close(&book, passes).len(), 3);
    Ok(())
}

#[test]
fn a_node_comes_up_once_and_only_where_it_is(rt: HostRuntime) -> Result<(), Fail> {
    let blank = Blank::new(rt.alloc(), LOGS)?;
    joined::<Brand, _>(&rt, rt.alloc(), blank)
}

fn joined<N: Names, R: Abort>(rt: &R, alloc: Global, blank: Blank) -> Result<(), Fail>
    requires book { (blank ≡ N.book) × (logs_of blank ≡ LOGS) }
    requires names { (N.callers ≡ CALLERS) × (N.spare_hands ≡ SPARE) × (N.shape ≡ SHAPE) }
{
    let Parts {
        book,
        mut coord,
        mut passes,
        nodes: _,
    } = opened::<N>(alloc, blank)?;
    let mut pass = passes.pop().ok_or("caller 1")?;
    coord.begin(&book, &mut pass, Deed::Join { node: 0 })?;
    let first = coord.join(&book, &mut pass, 0);
    coord.begin(&book, &mut pass, Deed::Lose { node: 0 })?;
    let second = coord.lose(&book, &mut pass, 0);
    coord.begin(&book, &mut pass, Deed::Join { node: 0 })?;
    let third = coord.join(&book, &mut pass, 0);
    coord.begin(&book, &mut pass, Deed::Join { node: 2 })?;
    let fourth = coord.join(&book, &mut pass, 2);
    assert_eq!(rt; first, NodeAct::NodeUp);
    assert_eq!(rt; second, NodeAct::Lost(0));
    assert_eq!(rt; third, NodeAct::Joined(1));
    assert_eq!(rt; fourth, NodeAct::NoSuchNode);
    assert_eq!(rt; coord.close(&book, passes).len(), 4);
    Ok(())
}

#[test]
fn a_node_is_settled(rt: HostRuntime) -> Result<(), Fail> {
    let alloc = rt.alloc();
    let blank = Blank::new(alloc, LOGS)?;
    let store = MemStore::new(alloc, [].to_vec(alloc)?)?;
    settled::<Brand, _, _>(&rt, alloc, blank, store)
}

fn settled<N: Names, S: Store + Drop, R: Abort>(
    rt: &R,
    alloc: Global,
    blank: Blank,
    store: S,
) -> Result<(), Fail>
    requires book { (blank ≡ N.book) × (logs_of blank ≡ LOGS) }
    requires names { (N.callers ≡ CALLERS) × (N.spare_hands ≡ SPARE) × (N.shape ≡ SHAPE) }
    requires tells { IsTrue S.tells }
    requires start { start_of N.stores 1 ≡ record { faults = S.faults store; faultless = S.faultless store } }
{
    let Parts {
        book,
        mut coord,
        mut passes,
        mut nodes,
    } = opened::<N>(alloc, blank)?;
    let mut pass = passes.pop().ok_or("caller 1")?;
    let keeper = nodes.swap_remove(1);
    let mut node = Node::new(alloc, 1, store, keeper, pass.front(&book));
    coord.settle(&book, &mut node);
    assert_eq!(rt; (node.number(), node.faults(), node.spent()), (1, 0, 0));
    assert_eq!(rt; coord.close(&book, passes).len(), 0);
    Ok(())
}

#[test]
fn two_threads_make_one_history(rt: HostRuntime) -> Result<(), Fail> {
    let blank = Blank::new(rt.alloc(), LOGS)?;
    worked::<Brand, _>(&rt, rt.alloc(), blank)
}

fn worked<N: Names + Send + Sync, R: Threads + Wait + Abort + Sync>(
    rt: &R,
    alloc: Global,
    blank: Blank,
) -> Result<(), Fail>
    requires book { (blank ≡ N.book) × (logs_of blank ≡ LOGS) }
    requires names { (N.callers ≡ CALLERS) × (N.spare_hands ≡ SPARE) × (N.shape ≡ SHAPE) }
{
    let Parts {
        book,
        coord,
        passes,
        nodes: _,
    } = opened::<N>(alloc, blank)?;
    let journal = finished(rt, &book, coord, passes);
    assert_eq!(rt; journal.len(), 12);
    Ok(())
}
