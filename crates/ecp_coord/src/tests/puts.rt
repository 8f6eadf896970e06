//! A put of one stripe: stored, and overtaken.
ghost use Rattle.std.specs.Prelude.{◌≡◌, ℕ, ◌<◌, [], IfOk, false, true, vec_len};
ghost use Rattle.ecp_book.specs.Logs.{empty_log, history_log, logs_of, node_log};
ghost use Rattle.ecp_node.specs.Nodes.{start_of};
ghost use Rattle.ecp_coord.specs.Coords.{AreNodeLogs};
ghost use Rattle.ecp_coord.specs.OneStripe.{AreRows, IsRow};

use super::{CALLERS, LOGS, Parts, SHAPE, SPARE, opened};
use crate::{NodeAct, Pass, Published, Renewed};
use ecp_book::{Blank, Book, Keeper, Names, Tag};
use ecp_entry::{Deed, Name};
use ecp_node::{Node, Receipt};
use ecp_store::MemStore;
use std::alloc::Global;
use std::marker::Brand;
use std::process::Abort;
use std::test::Fail;

#[test]
fn a_file_of_one_stripe_is_stored(rt: HostRuntime) -> Result<(), Fail> {
    let blank = Blank::new(rt.alloc(), LOGS)?;
    stored::<Brand, _>(&rt, rt.alloc(), blank)
}

fn stored<N: Names, R: Abort>(rt: &R, alloc: Global, blank: Blank) -> Result<(), Fail>
    requires book { (blank ≡ N.book) × (logs_of blank ≡ LOGS) }
    requires names { (N.callers ≡ CALLERS) × (N.spare_hands ≡ SPARE) × (N.shape ≡ SHAPE) }
    requires told { N.told ≡ false }
    requires stores { (m : ℕ) → m < 2 → start_of N.stores m ≡ record { faults = 0; faultless = true } }
{
    let Parts {
        book,
        mut coord,
        mut passes,
        nodes,
    } = opened::<N>(alloc, blank)?;
    let mut pass = passes.pop().ok_or("caller 1")?;
    let receipts = two_rows(alloc, &book, nodes, &mut pass)?;
    let name = Name::new("a");
    coord.begin(&book, &mut pass, Deed::Put { name, len: 1 })?;
    let Ok(mut res) = coord.reserve_put(&book, &mut pass, "a", 1) else {
        return Err("places".into());
    };
    let content = [0x41];
    let Published::Stored { first, stripes } = coord.publish(
        &book, &mut pass, &mut res, receipts, &content,
    ) else {
        return Err("stored".into());
    };
    assert_eq!(rt; (first, stripes), (0, 1));
    assert_eq!(rt; coord.close(&book, passes).len(), 1);
    Ok(())
}

#[test]
fn an_overtaken_put_is_asked_for_anew(rt: HostRuntime) -> Result<(), Fail> {
    let blank = Blank::new(rt.alloc(), LOGS)?;
    overtaken::<Brand, _>(&rt, rt.alloc(), blank)
}

fn overtaken<N: Names, R: Abort>(rt: &R, alloc: Global, blank: Blank) -> Result<(), Fail>
    requires book { (blank ≡ N.book) × (logs_of blank ≡ LOGS) }
    requires names { (N.callers ≡ CALLERS) × (N.spare_hands ≡ SPARE) × (N.shape ≡ SHAPE) }
{
    let Parts {
        book,
        mut coord,
        mut passes,
        nodes: _,
    } = opened::<N>(alloc, blank)?;
    let mut pass = passes.pop().ok_or("caller 1")?;
    let mut other = passes.pop().ok_or("caller 0")?;
    let name = Name::new("a");
    coord.begin(&book, &mut pass, Deed::Put { name, len: 1 })?;
    let Ok(mut res) = coord.reserve_put(&book, &mut pass, "a", 1) else {
        return Err("places".into());
    };
    coord.begin(&book, &mut other, Deed::Lose { node: 0 })?;
    let lost = coord.lose(&book, &mut other, 0);
    let answer = coord.renew(&book, &mut pass, &mut res);
    assert_eq!(rt; lost, NodeAct::Lost(0));
    assert_eq!(rt; answer, Renewed::TooFewNodes(1));
    assert_eq!(rt; (res.voids.len, res.voids.at[0]), (1, 0));
    assert_eq!(rt; coord.close(&book, passes).len(), 2);
    Ok(())
}

/// The receipts of the two rows of stripe 0, each on the node of its number.
fn two_rows<N: Names>(
    alloc: Global,
    book: &Book<N>,
    mut keepers: Vec<Keeper<N>>,
    pass: &mut Pass<N>,
) -> Result<Vec<Receipt<N>>, Fail>
    requires logs { AreNodeLogs 2 keepers.items }
    requires stores { (m : ℕ) → m < 2 → start_of N.stores m ≡ record { faults = 0; faultless = true } }
    ensures rows { IfOk result (λ rows. AreRows rows.items) }
    ensures pass { pass.new ≡ pass.old }
{
    let second = keepers.pop().ok_or("log 2")?;
    let first = keepers.pop().ok_or("log 1")?;
    let mut rows = Vec::with_capacity(alloc, 2)?;
    rows.push(kept(alloc, book, first, pass.front(book), 0)?)?;
    rows.push(kept(alloc, book, second, pass.front(book), 1)?)?;
    Ok(rows)
}

/// The receipt of a row of stripe 0, from the node of its number, which keeps one byte for it.
fn kept<N: Names>(
    alloc: Global,
    book: &Book<N>,
    keeper: Keeper<N>,
    past: Tag<N>,
    row: u8,
) -> Result<Receipt<N>, Fail>
    requires keeper { keeper ≡ empty_log (node_log row) }
    requires stores { start_of N.stores row ≡ record { faults = 0; faultless = true } }
    requires past { past.log ≡ history_log }
    ensures { IfOk result (IsRow row) }
{
    let store = MemStore::new(alloc, Vec::new(alloc))?;
    let mut node = Node::new(alloc, row, store, keeper, past);
    let Ok(receipt) = node.keep(book, 0, row, 0, &[0x41]) else {
        return Err("kept".into());
    };
    Ok(receipt)
}
