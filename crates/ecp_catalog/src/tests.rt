ghost use Rattle.std.specs.Prelude.{◌≡◌, ℕ, ◌<◌, IfOk, true, vec_len};
ghost use Rattle.ecp_catalog.specs.Catalogs.{plain};
ghost use Rattle.ecp_catalog.specs.Standing.{standing};
ghost use Rattle.ecp_book.specs.Logs.{empty_log, history_log, node_log};
ghost use Rattle.ecp_node.specs.Nodes.{start_of};

use crate::{Catalog, Stamps};
use ecp_book::{Blank, Book, Keeper, Names, Tag};
use ecp_entry::Name;
use ecp_history::{BlockName, File, Task};
use ecp_node::{Node, Receipt};
use ecp_plan::{Hop, LiveRow};
use ecp_shape::Shape;
use ecp_store::{MemStore, NoMemory};
use std::alloc::Global;
use std::marker::Brand;
use std::process::Abort;
use std::test::Fail;

/// The receipt of a row of stripe 0, from the node of its number, which keeps one byte for it. The node keeps row 0 too,
/// whose receipt goes behind the spare ones.
fn kept<N: Names, R: Abort>(
    rt: &R,
    alloc: Global,
    book: &Book<N>,
    keeper: Keeper<N>,
    past: Tag<N>,
    row: u8,
    spare: &mut Vec<Receipt<N>>,
) -> Result<Receipt<N>, Fail>
    requires stores { (m : ℕ) → m < 3 → start_of N.stores m ≡ record { faults = 0; faultless = true } }
    requires row { row < 3 }
    requires past { past.log ≡ history_log }
    ensures { IfOk result (λ r. r.node ≡ row) }
{
    assert!(rt; keeper.log() == u32::from(row) + 1 && keeper.len() == 0);
    let store = MemStore::new(alloc, Vec::new(alloc))?;
    let mut node = Node::new(alloc, row, store, keeper, past);
    let Ok(receipt) = node.keep(book, 0, row, 0, &[0x41]) else {
        return Err("kept".into());
    };
    let Ok(other) = node.keep(book, 0, 0, 0, &[0x41]) else {
        return Err("kept row 0".into());
    };
    spare.push(other)?;
    Ok(receipt)
}

/// The receipts of the three rows of stripe 0, each on the node of its number, and the spare ones of row 0 on each node.
fn three_rows<N: Names, R: Abort>(
    rt: &R,
    alloc: Global,
    book: &Book<N>,
    mut keepers: Vec<Keeper<N>>,
    spare: &mut Vec<Receipt<N>>,
) -> Result<Vec<Receipt<N>>, Fail>
    requires stores { (m : ℕ) → m < 3 → start_of N.stores m ≡ record { faults = 0; faultless = true } }
{
    let third = keepers.pop().ok_or("log 3")?;
    let second = keepers.pop().ok_or("log 2")?;
    let first = keepers.pop().ok_or("log 1")?;
    let mut history = keepers.pop().ok_or("log 0")?;
    assert!(rt; history.log() == 0);
    let mut rows = Vec::new(alloc);
    rows.push(kept(rt, alloc, book, first, book.tag(&mut history), 0, spare)?)?;
    rows.push(kept(rt, alloc, book, second, book.tag(&mut history), 1, spare)?)?;
    rows.push(kept(rt, alloc, book, third, book.tag(&mut history), 2, spare)?)?;
    Ok(rows)
}

/// A catalog of three nodes with the file `a` of two bytes.
fn with_file<N: Names>(alloc: Global, rows: Vec<Receipt<N>>) -> Result<Catalog<N>, NoMemory>
    requires { vec_len rows ≡ 3 }
{
    let shape = Shape {
        n: 3,
        k: 2,
        nodes: 3,
        block: 1,
    };
    let name = Name::new("a");
    let mut catalog = Catalog::new(alloc, shape)?;
    catalog.reserve(&name, 1)?;
    let file = File {
        name,
        len: 2,
        first: 0,
        stripes: 1,
    };
    catalog.store(file, rows);
    Ok(catalog)
}

/// A catalog of three nodes with the file `a` in stripe 9 and then the file `b` in stripe 4.
fn with_two_files<N: Names>(
    alloc: Global,
    rows: Vec<Receipt<N>>,
    others: Vec<Receipt<N>>,
) -> Result<Catalog<N>, NoMemory>
    requires rows { vec_len rows ≡ 3 }
    requires others { vec_len others ≡ 3 }
{
    let shape = Shape {
        n: 3,
        k: 2,
        nodes: 3,
        block: 1,
    };
    let mut catalog = Catalog::new(alloc, shape)?;
    let name = Name::new("a");
    catalog.reserve(&name, 1)?;
    catalog.store(two_bytes(name, 9), rows);
    let other = Name::new("b");
    catalog.reserve(&other, 1)?;
    catalog.store(two_bytes(other, 4), others);
    Ok(catalog)
}

/// A file of two bytes, in one stripe.
fn two_bytes(name: Name, first: u32) -> File
    ensures { result ≡ record { name = name; len = 2; first = first; stripes = 1 } }
{
    File {
        name,
        len: 2,
        first,
        stripes: 1,
    }
}

/// Loses a node that has no loss yet.
fn lose<N: Names, R: Abort>(
    rt: &R,
    catalog: &mut Catalog<N>,
    node: u32,
    position: u32,
) -> Result<(), Fail> {
    assert!(rt; node < catalog.shape().nodes);
    match catalog.first_loss_from(node, 0) {
        Some(_) => Err("no loss before".into()),
        None => {
            catalog.reserve_loss(node, 1)?;
            catalog.lose(node, position);
            Ok(())
        }
    }
}

/// Brings up a node that came up seldom.
fn join<N: Names, R: Abort>(rt: &R, catalog: &mut Catalog<N>, node: u32) {
    assert!(rt; node < catalog.shape().nodes && catalog.inc(node) < 7);
    catalog.join(node);
}

/// Restores a lost row of stripe 0 onto a node that is up, and has few live blocks.
fn restore<N: Names>(catalog: &mut Catalog<N>, receipt: Receipt<N>) -> Result<(), Fail> {
    let node = u32::from(receipt.node());
    let up = catalog.is_up(node);
    let inc = catalog.inc(node);
    if up {
        if inc == receipt.inc() {
            return restore_lost(catalog, receipt);
        }
    }
    Err("a node that is up".into())
}

/// Restores a lost row of stripe 0 onto a node that has few live blocks.
fn restore_lost<N: Names>(catalog: &mut Catalog<N>, receipt: Receipt<N>) -> Result<(), Fail>
    requires up { (standing (plain catalog.old).nodes receipt).live ≡ true }
{
    let there = catalog.has_stripe(0);
    let live = catalog.live_on(u32::from(receipt.node()));
    let most = catalog.shape().n;
    let lost = catalog.is_lost(receipt.stripe(), receipt.row());
    if there {
        if live < most {
            if lost {
                catalog.restore(receipt);
                return Ok(());
            }
        }
    }
    Err("a lost row, and a node with few live blocks".into())
}

#[test]
fn rows_are_live_until_their_node_is_lost(rt: HostRuntime) -> Result<(), Fail> {
    let blank = Blank::new(rt.alloc(), 4)?;
    put_and_lost::<Brand, _>(&rt, rt.alloc(), blank)
}

fn put_and_lost<N: Names, R: Abort>(rt: &R, alloc: Global, blank: Blank) -> Result<(), Fail>
    requires book { blank ≡ N.book }
    requires stores { (m : ℕ) → m < 3 → start_of N.stores m ≡ record { faults = 0; faultless = true } }
{
    let (book, keepers) = Book::<N>::open(alloc, blank)?;
    let mut spare = Vec::new(alloc);
    let rows = three_rows(rt, alloc, &book, keepers, &mut spare)?;
    assert!(rt; rows.len() == 3);
    let mut catalog = with_file(alloc, rows)?;
    is_whole(rt, &catalog);
    names_lead_to_blocks(rt, &catalog);
    lose(rt, &mut catalog, 0, 1)?;
    is_without_node_zero(rt, &catalog);
    knows_the_loss(rt, &catalog);
    join(rt, &mut catalog, 0);
    node_zero_is_back_without_its_block(rt, &catalog);
    let on_two = spare.pop().ok_or("row 0 on node 2")?;
    restore(&mut catalog, on_two)?;
    row_zero_is_live_on_node_two(rt, &catalog);
    Ok(())
}

fn is_whole<N: Names, R: Abort>(rt: &R, catalog: &Catalog<N>) {
    assert!(rt; catalog.up_mask() == 7 && catalog.live_on(0) == 1);
    assert!(rt; catalog.is_live(0, 0) && !catalog.is_live(0, 3) && !catalog.is_live(1, 0));
    assert!(rt; catalog.has_stripe(0) && !catalog.has_stripe(1));
}

fn names_lead_to_blocks<N: Names, R: Abort>(rt: &R, catalog: &Catalog<N>) {
    let name = Name::new("a");
    assert!(rt; catalog.file(&name).is_some_and(|file| file.len == 2));
    assert!(rt; !catalog.is_free(&name) && catalog.is_free(&Name::new("b")));
    assert_eq!(rt;
        catalog.block_of(&name, 1),
        Some(BlockName { stripe: 0, row: 1 })
    );
    assert!(rt; catalog.block_of(&name, 2).is_none());
}

fn is_without_node_zero<N: Names, R: Abort>(rt: &R, catalog: &Catalog<N>) {
    assert!(rt; catalog.up_mask() == 6 && catalog.up_count() == 2);
    assert!(rt; !catalog.is_up(0) && catalog.is_up(1) && catalog.inc(0) == 0);
    assert!(rt; catalog.live_on(0) == 0 && catalog.live_on(2) == 1);
    let live = [LiveRow { row: 1, node: 1 }, LiveRow { row: 2, node: 2 }];
    assert_eq!(rt; catalog.live_rows(0).as_slice(), &live[..]);
    assert!(rt; catalog.live_rows(1).len() == 0);
}

fn knows_the_loss<N: Names, R: Abort>(rt: &R, catalog: &Catalog<N>) {
    assert!(rt; catalog.first_loss_from(0, 1) == Some(1));
    assert!(rt; catalog.first_loss_from(0, 2).is_none());
    assert!(rt; catalog.first_loss_among(3, 0) == Some(1));
    assert!(rt; catalog.first_loss_among(6, 0).is_none());
}

fn node_zero_is_back_without_its_block<N: Names, R: Abort>(rt: &R, catalog: &Catalog<N>) {
    assert!(rt; catalog.is_up(0) && catalog.inc(0) == 1 && catalog.up_mask() == 7);
    assert!(rt; !catalog.is_live(0, 0) && catalog.live_on(0) == 0);
}

fn row_zero_is_live_on_node_two<N: Names, R: Abort>(rt: &R, catalog: &Catalog<N>) {
    assert!(rt; catalog.is_live(0, 0) && !catalog.is_lost(0, 0) && !catalog.is_lost(0, 3));
    assert!(rt; catalog.live_on(0) == 0 && catalog.live_on(1) == 1 && catalog.live_on(2) == 2);
    let live = [
        LiveRow { row: 0, node: 2 },
        LiveRow { row: 1, node: 1 },
        LiveRow { row: 2, node: 2 },
    ];
    assert_eq!(rt; catalog.live_rows(0).as_slice(), &live[..]);
}

#[test]
fn a_rebuild_lists_lost_rows_in_order(rt: HostRuntime) -> Result<(), Fail> {
    let blank = Blank::new(rt.alloc(), 4)?;
    lose_and_list::<Brand, _>(&rt, rt.alloc(), blank)
}

/// Row 0 is lost on node 0, restored onto node 2, and lost there with row 2.
fn lose_and_list<N: Names, R: Abort>(rt: &R, alloc: Global, blank: Blank) -> Result<(), Fail>
    requires book { blank ≡ N.book }
    requires stores { (m : ℕ) → m < 3 → start_of N.stores m ≡ record { faults = 0; faultless = true } }
{
    let (book, keepers) = Book::<N>::open(alloc, blank)?;
    let mut spare = Vec::new(alloc);
    let rows = three_rows(rt, alloc, &book, keepers, &mut spare)?;
    assert!(rt; rows.len() == 3);
    let mut catalog = with_file(alloc, rows)?;
    lists(rt, alloc, &catalog, 0, &[])?;
    lose(rt, &mut catalog, 0, 1)?;
    lists(rt, alloc, &catalog, 0, &[task(1, 0, 0)])?;
    lists(rt, alloc, &catalog, 1, &[])?;
    let on_two = spare.pop().ok_or("row 0 on node 2")?;
    restore(&mut catalog, on_two)?;
    lists(rt, alloc, &catalog, 0, &[])?;
    lose(rt, &mut catalog, 2, 5)?;
    lists(rt, alloc, &catalog, 2, &[task(1, 0, 0), task(2, 0, 2)])
}

#[test]
fn a_rebuild_lists_stripes_in_order(rt: HostRuntime) -> Result<(), Fail> {
    let blank = Blank::new(rt.alloc(), 4)?;
    lose_two_stripes::<Brand, _>(&rt, rt.alloc(), blank)
}

fn lose_two_stripes<N: Names, R: Abort>(rt: &R, alloc: Global, blank: Blank) -> Result<(), Fail>
    requires book { blank ≡ N.book }
    requires stores { (m : ℕ) → m < 3 → start_of N.stores m ≡ record { faults = 0; faultless = true } }
{
    let (book, keepers) = Book::<N>::open(alloc, blank)?;
    let mut spare = Vec::new(alloc);
    let rows = three_rows(rt, alloc, &book, keepers, &mut spare)?;
    assert!(rt; rows.len() == 3 && spare.len() == 3);
    let mut catalog = with_two_files(alloc, rows, spare)?;
    lose(rt, &mut catalog, 1, 2)?;
    lists(rt, alloc, &catalog, 1, &[task(1, 4, 1), task(2, 9, 1)])?;
    lists(rt, alloc, &catalog, 7, &[])
}

/// A rebuild of a node has these tasks.
fn lists<N: Names, R: Abort>(
    rt: &R,
    alloc: Global,
    catalog: &Catalog<N>,
    node: u32,
    tasks: &[Task],
) -> Result<(), Fail> {
    assert_eq!(rt; catalog.lost_on(alloc, node)?.as_slice(), tasks);
    Ok(())
}

fn task(part: u32, stripe: u32, row: u8) -> Task {
    Task { part, stripe, row }
}

#[test]
fn stamps_go_round(rt: HostRuntime) -> Result<(), Fail> {
    let blank = Blank::new(rt.alloc(), 4)?;
    three_helps::<Brand, _>(&rt, rt.alloc(), blank)
}

/// Three direct plans: the nodes that help are 1, 2 and again 1.
fn three_helps<N: Names, R: Abort>(rt: &R, alloc: Global, blank: Blank) -> Result<(), Fail>
    requires book { blank ≡ N.book }
    requires stores { (m : ℕ) → m < 3 → start_of N.stores m ≡ record { faults = 0; faultless = true } }
{
    let (book, keepers) = Book::<N>::open(alloc, blank)?;
    let mut spare = Vec::new(alloc);
    let mut rows = three_rows(rt, alloc, &book, keepers, &mut spare)?;
    let second = [helper(2, rows.pop().ok_or("row 2")?)];
    let first = [helper(1, rows.pop().ok_or("row 1")?)];
    let mut stamps = Stamps::new();
    stamps.raise(&first);
    stamps.raise(&second);
    assert!(rt; stamps.as_slice()[1] == 1 && stamps.as_slice()[2] == 2);
    stamps.raise(&first);
    assert!(rt; stamps.as_slice()[1] == 3 && stamps.as_slice()[2] == 2);
    assert!(rt; stamps.as_slice()[0] == 0);
    Ok(())
}

fn helper<N: Names>(node: u8, receipt: Receipt<N>) -> Hop<N>
    ensures { result.node ≡ node }
{
    Hop {
        row: node,
        node,
        inc: 0,
        weight: 1,
        receipt,
    }
}
