//! Which answer comes first where two causes stand together.
ghost use Rattle.std.specs.Prelude.{◌≡◌, ℕ, ◌<◌, IfOk, false, true};
ghost use Rattle.ecp_book.specs.Logs.{logs_of};
ghost use Rattle.ecp_node.specs.Nodes.{start_of};
ghost use Rattle.ecp_sequencer.specs.Passes.{IsWhole};
ghost use Rattle.ecp_coord.specs.Puts.{IsReserved};

use super::worked::{Scene, lose, publish, put, reserved, rows_of, set_up};
use super::{CALLERS, SPARE};
use crate::{Ask, Coord, NoPlaces, NoPlan, Pass, Published, Renewed, Reservation};
use ecp_book::{Blank, Book, Names};
use ecp_entry::{Deed, Name};
use ecp_node::Node;
use ecp_shape::Shape;
use ecp_store::MemStore;
use std::alloc::Global;
use std::marker::Brand;
use std::process::Abort;
use std::test::Fail;

/// Two rows a stripe, on three nodes.
const SHAPE: Shape = Shape {
    n: 2,
    k: 1,
    nodes: 3,
    block: 1,
};

const LOGS: u32 = 3 + 9;

#[test]
fn a_taken_name_comes_before_too_few_nodes(rt: HostRuntime) -> Result<(), Fail> {
    let blank = Blank::new(rt.alloc(), LOGS)?;
    hindered::<Brand, _>(&rt, rt.alloc(), blank)
}

fn hindered<N: Names, R: Abort>(rt: &R, alloc: Global, blank: Blank) -> Result<(), Fail>
    requires book { (blank ≡ N.book) × (logs_of blank ≡ LOGS) }
    requires names { (N.callers ≡ CALLERS) × (N.spare_hands ≡ SPARE) × (N.shape ≡ SHAPE) }
    requires told { N.told ≡ false }
    requires stores { (m : ℕ) → m < 3 → start_of N.stores m ≡ record { faults = 0; faultless = true } }
{
    let Scene {
        book,
        mut coord,
        mut pass,
        mut other,
        mut nodes,
    } = set_up::<N>(alloc, blank, SHAPE)?;
    let mut late = beaten(alloc, &mut coord, &book, &mut pass, &mut other, &mut nodes)?;
    let renewed = coord.renew(&book, &mut pass, &mut late);
    let places = no_places(&mut coord, &book, &mut other)?;
    assert_eq!(rt; renewed, Renewed::NameTaken);
    assert_eq!(rt; (late.voids.len, late.voids.at[0]), (1, 1));
    assert_eq!(rt; places, NoPlaces::NameTaken);
    assert_eq!(rt; coord.close(&book, Vec::new(alloc)).len(), 5);
    Ok(())
}

#[test]
fn a_taken_name_comes_before_a_loss(rt: HostRuntime) -> Result<(), Fail> {
    let blank = Blank::new(rt.alloc(), LOGS)?;
    taken::<Brand, _>(&rt, rt.alloc(), blank)
}

fn taken<N: Names, R: Abort>(rt: &R, alloc: Global, blank: Blank) -> Result<(), Fail>
    requires book { (blank ≡ N.book) × (logs_of blank ≡ LOGS) }
    requires names { (N.callers ≡ CALLERS) × (N.spare_hands ≡ SPARE) × (N.shape ≡ SHAPE) }
    requires told { N.told ≡ false }
    requires stores { (m : ℕ) → m < 3 → start_of N.stores m ≡ record { faults = 0; faultless = true } }
{
    let Scene {
        book,
        mut coord,
        mut pass,
        mut other,
        mut nodes,
    } = set_up::<N>(alloc, blank, SHAPE)?;
    let mut late = beaten(alloc, &mut coord, &book, &mut pass, &mut other, &mut nodes)?;
    let rows = rows_of(alloc, &book, &mut nodes, &late, 2)?;
    let Published::NameTaken(rows) = publish(&mut coord, &book, &mut pass, &mut late, rows, SHAPE)
    else {
        return Err("not taken".into());
    };
    assert_eq!(rt; rows.len(), 2);
    assert_eq!(rt; coord.close(&book, Vec::new(alloc)).len(), 4);
    Ok(())
}

#[test]
fn a_block_past_the_end_comes_before_lost_rows(rt: HostRuntime) -> Result<(), Fail> {
    let blank = Blank::new(rt.alloc(), LOGS)?;
    sought::<Brand, _>(&rt, rt.alloc(), blank)
}

fn sought<N: Names, R: Abort>(rt: &R, alloc: Global, blank: Blank) -> Result<(), Fail>
    requires book { (blank ≡ N.book) × (logs_of blank ≡ LOGS) }
    requires names { (N.callers ≡ CALLERS) × (N.spare_hands ≡ SPARE) × (N.shape ≡ SHAPE) }
    requires told { N.told ≡ false }
    requires stores { (m : ℕ) → m < 3 → start_of N.stores m ≡ record { faults = 0; faultless = true } }
{
    let Scene {
        book,
        mut coord,
        mut pass,
        mut other,
        mut nodes,
    } = set_up::<N>(alloc, blank, SHAPE)?;
    let _ = beaten(alloc, &mut coord, &book, &mut pass, &mut other, &mut nodes)?;
    let past = no_plan(alloc, &mut coord, &book, &mut other, 1)?;
    let within = no_plan(alloc, &mut coord, &book, &mut other, 0)?;
    assert_eq!(rt; past, NoPlan::NoSuchBlock(1));
    assert_eq!(rt; within, NoPlan::Unrecoverable(0));
    assert_eq!(rt; coord.close(&book, Vec::new(alloc)).len(), 5);
    Ok(())
}

/// The places of a put, whose name another caller takes then, with a file of which both rows are lost.
fn beaten<N: Names>(
    alloc: Global,
    coord: &mut Coord<N>,
    book: &Book<N>,
    pass: &mut Pass<N>,
    other: &mut Pass<N>,
    nodes: &mut [Node<N, MemStore>],
) -> Result<Reservation<N>, Fail>
    requires names { (N.shape ≡ SHAPE) × (N.told ≡ false) }
    requires whole { IsWhole pass.old }
    requires other { IsWhole other.old }
    ensures reserved { IfOk result (λ res. IsReserved N.shape N.told pass.new res) }
    ensures len { IfOk result (λ res. res.len ≡ 1) }
    ensures other { IsWhole other.new }
{
    let mut late = reserved(coord, book, pass)?;
    put(alloc, coord, book, other, nodes, SHAPE)?;
    stays(coord, book, pass, &mut late)?;
    lose(coord, book, other, 1)?;
    lose(coord, book, other, 2)?;
    Ok(late)
}

/// A put still has its places, though the name is taken.
fn stays<N: Names>(
    coord: &mut Coord<N>,
    book: &Book<N>,
    pass: &mut Pass<N>,
    res: &mut Reservation<N>,
) -> Result<(), Fail>
    requires reserved { IsReserved N.shape N.told pass.old res.old }
    ensures reserved { IfOk result (λ _. IsReserved N.shape N.told pass.new res.new) }
    ensures len { IfOk result (λ _. res.new.len ≡ res.old.len) }
{
    let Renewed::StillGood = coord.renew(book, pass, res) else {
        return Err("not still good".into());
    };
    Ok(())
}

/// Why a put gets no places.
fn no_places<N: Names>(
    coord: &mut Coord<N>,
    book: &Book<N>,
    pass: &mut Pass<N>,
) -> Result<NoPlaces, Fail>
    requires whole { IsWhole pass.old }
    ensures whole { IsWhole pass.new }
{
    let name = Name::new("a");
    coord.begin(book, pass, Deed::Put { name, len: 1 })?;
    let Err(why) = coord.reserve_put(book, pass, "a", 1) else {
        return Err("places".into());
    };
    Ok(why)
}

/// Why a read gets no plan.
fn no_plan<N: Names>(
    alloc: Global,
    coord: &mut Coord<N>,
    book: &Book<N>,
    pass: &mut Pass<N>,
    index: u32,
) -> Result<NoPlan, Fail>
    requires whole { IsWhole pass.old }
    ensures whole { IsWhole pass.new }
{
    let deed = Deed::Read {
        name: Name::new("a"),
        index,
    };
    coord.begin(book, pass, deed)?;
    let Err(why) = coord.plan(alloc, book, pass, Ask::Read { name: "a", index }) else {
        return Err("a plan".into());
    };
    Ok(why)
}
