//! The steps of a worked put of one byte, whose rows are kept in memory.
ghost use Rattle.std.specs.Prelude.{◌≡◌, ℕ, ◌+◌, ◌<◌, IfOk, false, length, true};
ghost use Rattle.ecp_shape.specs.Range.{IsInRange};
ghost use Rattle.ecp_book.specs.Logs.{empty_log, history_log, logs_of, node_log};
ghost use Rattle.ecp_node.specs.Nodes.{start_of};
ghost use Rattle.ecp_history.specs.table.Placement.{nodes_in};
ghost use Rattle.ecp_sequencer.specs.Passes.{IsWhole, first_passes};
ghost use Rattle.ecp_coord.specs.Coords.{AreNodeLogs};
ghost use Rattle.ecp_coord.specs.OneByte.{AreRowsOf, IfOvertaken, IsRowOf};
ghost use Rattle.ecp_coord.specs.Puts.{IsReserved};

use super::{CALLERS, Parts, SPARE};
use crate::{Coord, NoMemory, NodeAct, Pass, Published, Renewed, Reservation};
use ecp_book::{Blank, Book, Keeper, Names, Tag};
use ecp_entry::{Deed, Name};
use ecp_node::{Node, Receipt};
use ecp_plan::place;
use ecp_shape::Shape;
use ecp_store::MemStore;
use std::alloc::Global;
use std::test::Fail;

/// Two callers of one coordinator, over three nodes with their blocks in memory.
#[derive(Drop)]
pub(super) struct Scene<N: Names> {
    pub(super) book: Book<N>,
    pub(super) coord: Coord<N>,
    pub(super) pass: Pass<N>,
    pub(super) other: Pass<N>,
    pub(super) nodes: Vec<Node<N, MemStore>>,
}

pub(super) fn set_up<N: Names>(alloc: Global, blank: Blank, shape: Shape) -> Result<Scene<N>, Fail>
    requires range { IsInRange shape }
    requires three { shape.nodes ≡ 3 }
    requires book { (blank ≡ N.book) × (logs_of blank ≡ shape.nodes + 9) }
    requires names { (N.callers ≡ CALLERS) × (N.spare_hands ≡ SPARE) × (N.shape ≡ shape) }
    requires told { N.told ≡ false }
    requires stores { (m : ℕ) → m < 3 → start_of N.stores m ≡ record { faults = 0; faultless = true } }
    ensures pass { IfOk result (λ o. IsWhole o.pass) }
    ensures other { IfOk result (λ o. IsWhole o.other) }
{
    let Parts {
        book,
        coord,
        mut passes,
        nodes,
    } = opened_over::<N>(alloc, blank, shape)?;
    let mut pass = passes.pop().ok_or("caller 1")?;
    let other = passes.pop().ok_or("caller 0")?;
    let nodes = in_memory(alloc, &book, nodes, &mut pass)?;
    Ok(Scene {
        book,
        coord,
        pass,
        other,
        nodes,
    })
}

/// A coordinator over these sizes, and the keepers of the nodes' logs.
pub(super) fn opened_over<N: Names>(
    alloc: Global,
    blank: Blank,
    shape: Shape,
) -> Result<Parts<N>, NoMemory>
    requires range { IsInRange shape }
    requires book { (blank ≡ N.book) × (logs_of blank ≡ shape.nodes + 9) }
    requires names { (N.callers ≡ CALLERS) × (N.spare_hands ≡ SPARE) × (N.shape ≡ shape) }
    ensures nodes { IfOk result (λ o. AreNodeLogs shape.nodes o.nodes.items) }
    ensures passes { IfOk result (λ o. o.passes.items ≡ first_passes 1 2) }
{
    let (book, mut keepers) = Book::<N>::open(alloc, blank)?;
    let ties = keepers.split_off(1 + shape.nodes as usize)?;
    let mut nodes = keepers.split_off(1)?;
    let history = keepers.swap_remove(0);
    let (coord, passes) = Coord::new(
        alloc, &book, shape, 1, false, SPARE, history, &mut nodes, ties,
    )?;
    Ok(Parts {
        book,
        coord,
        passes,
        nodes,
    })
}

// Three nodes, in rising order, with their blocks in memory.
fn in_memory<N: Names>(
    alloc: Global,
    book: &Book<N>,
    mut keepers: Vec<Keeper<N>>,
    pass: &mut Pass<N>,
) -> Result<Vec<Node<N, MemStore>>, NoMemory>
    requires told { N.told ≡ false }
    requires logs { AreNodeLogs 3 keepers.items }
    requires stores { (m : ℕ) → m < 3 → start_of N.stores m ≡ record { faults = 0; faultless = true } }
    ensures pass { pass.new ≡ pass.old }
{
    let mut nodes = Vec::with_capacity(alloc, keepers.len())?;
    while let Some(keeper) = keepers.pop() {
        let number = keepers.len() as u8;
        nodes.push(node_of(alloc, number, keeper, pass.front(book))?)?;
    }
    nodes.reverse();
    Ok(nodes)
}

// A node with its blocks in memory.
fn node_of<N: Names>(
    alloc: Global,
    number: u8,
    keeper: Keeper<N>,
    past: Tag<N>,
) -> Result<Node<N, MemStore>, NoMemory>
    requires keeper { keeper ≡ empty_log (node_log number) }
    requires past { past.log ≡ history_log }
    requires start { start_of N.stores number ≡ record { faults = 0; faultless = true } }
{
    let store = MemStore::new(alloc, Vec::new(alloc))?;
    Ok(Node::new(alloc, number, store, keeper, past))
}

/// The receipts of the `n` rows of a put of one byte, from the nodes that are their places.
pub(super) fn rows_of<N: Names>(
    alloc: Global,
    book: &Book<N>,
    nodes: &mut [Node<N, MemStore>],
    res: &Reservation<N>,
    n: u8,
) -> Result<Vec<Receipt<N>>, Fail>
    ensures { IfOk result (λ rows. AreRowsOf res.now n rows.items) }
{
    let mut rows = Vec::with_capacity(alloc, usize::from(n))?;
    for row in 0..n {
        rows.push(row_of(book, nodes, res, row)?)?;
    }
    Ok(rows)
}

// The receipt of a row of a put of one byte.
fn row_of<N: Names>(
    book: &Book<N>,
    nodes: &mut [Node<N, MemStore>],
    res: &Reservation<N>,
    row: u8,
) -> Result<Receipt<N>, Fail>
    ensures { IfOk result (IsRowOf res.now row) }
{
    if u32::from(row) >= up_count(res.up) {
        return Err("too few nodes".into());
    }
    let number = place(res.up, res.first, row);
    let at = usize::from(number);
    if at >= nodes.len() || at >= 32 {
        return Err("no such node".into());
    }
    let inc = res.incs[at];
    let Ok(receipt) = nodes[at].keep(book, res.first, row, inc, &[0x41]) else {
        return Err("not kept".into());
    };
    if receipt.node() != number || receipt.inc() != inc {
        return Err("another node".into());
    }
    Ok(receipt)
}

// How many nodes are up.
fn up_count(up: u32) -> u32
    ensures { result ≡ length (nodes_in up) }
{
    up.count_ones()
}

/// The places of a put of one byte.
pub(super) fn reserved<N: Names>(
    coord: &mut Coord<N>,
    book: &Book<N>,
    pass: &mut Pass<N>,
) -> Result<Reservation<N>, Fail>
    requires whole { IsWhole pass.old }
    ensures reserved { IfOk result (λ res. IsReserved N.shape N.told pass.new res) }
    ensures len { IfOk result (λ res. res.len ≡ 1) }
    ensures whole { IsWhole pass.new }
{
    let name = Name::new("a");
    coord.begin(book, pass, Deed::Put { name, len: 1 })?;
    let Ok(res) = coord.reserve_put(book, pass, "a", 1) else {
        return Err("no places".into());
    };
    Ok(res)
}

/// The next attempt of a put of one byte that was overtaken.
pub(super) fn again<N: Names>(
    coord: &mut Coord<N>,
    book: &Book<N>,
    pass: &mut Pass<N>,
    res: &mut Reservation<N>,
) -> Result<(), Fail>
    requires reserved { IsReserved N.shape N.told pass.old res.old }
    ensures reserved { IfOk result (λ _. IsReserved N.shape N.told pass.new res.new) }
    ensures len { IfOk result (λ _. res.new.len ≡ res.old.len) }
{
    let Renewed::Again = coord.renew(book, pass, res) else {
        return Err("not again".into());
    };
    Ok(())
}

/// Loses a node.
pub(super) fn lose<N: Names>(
    coord: &mut Coord<N>,
    book: &Book<N>,
    pass: &mut Pass<N>,
    node: u32,
) -> Result<NodeAct, NoMemory>
    requires whole { IsWhole pass.old }
    ensures whole { IsWhole pass.new }
{
    coord.begin(book, pass, Deed::Lose { node })?;
    Ok(coord.lose(book, pass, node))
}

/// Publishes a put of one byte. One that a loss overtook keeps its places.
pub(super) fn publish<N: Names>(
    coord: &mut Coord<N>,
    book: &Book<N>,
    pass: &mut Pass<N>,
    res: &mut Reservation<N>,
    rows: Vec<Receipt<N>>,
    shape: Shape,
) -> Published<N>
    requires range { IsInRange shape }
    requires byte { (shape.k ≡ 1) × (shape.block ≡ 1) }
    requires names { (N.shape ≡ shape) × (N.told ≡ false) }
    requires reserved { IsReserved N.shape N.told pass.old res.old }
    requires len { res.old.len ≡ 1 }
    requires rows { AreRowsOf res.old shape.n rows.items }
    ensures overtaken { IfOvertaken result (IsReserved N.shape N.told pass.new res.new) }
    ensures same { res.new ≡ res.old }
    ensures whole { IsWhole pass.new }
{
    coord.publish(book, pass, res, rows, &[0x41])
}

/// The number of the first stripe of a put of one byte, once it is stored.
pub(super) fn put<N: Names>(
    alloc: Global,
    coord: &mut Coord<N>,
    book: &Book<N>,
    pass: &mut Pass<N>,
    nodes: &mut [Node<N, MemStore>],
    shape: Shape,
) -> Result<u32, Fail>
    requires range { IsInRange shape }
    requires byte { (shape.k ≡ 1) × (shape.block ≡ 1) }
    requires names { (N.shape ≡ shape) × (N.told ≡ false) }
    requires whole { IsWhole pass.old }
    ensures whole { IsWhole pass.new }
{
    let mut res = reserved(coord, book, pass)?;
    let rows = rows_of(alloc, book, nodes, &res, shape.n as u8)?;
    let Published::Stored { first, stripes: 1 } = publish(coord, book, pass, &mut res, rows, shape)
    else {
        return Err("not stored".into());
    };
    Ok(first)
}
