//! Files that are opened, and calls that end by their parts.
ghost use Rattle.std.specs.Prelude.{◌≡◌, ℕ, ◌<◌, ◌≤◌, IfOk, Ok, false, length, true};
ghost use Rattle.ecp_shape.specs.declared.limits.TheConstants.{MAX_NAME};
ghost use Rattle.ecp_book.specs.Logs.{logs_of};
ghost use Rattle.ecp_entry.specs.declared.act.Act.TheVariants.{Whole};
ghost use Rattle.ecp_node.specs.Nodes.{start_of};
ghost use Rattle.ecp_sequencer.specs.Passes.{IsWhole};
ghost use Rattle.ecp_coord.specs.declared.opened.Opened.TheVariants as found;
ghost use Rattle.ecp_coord.specs.Closing.{MayClose};
ghost use Rattle.ecp_coord.specs.Puts.{IsReserved};

use super::worked::{Scene, rows_of, set_up};
use super::{CALLERS, SPARE};
use crate::{Coord, NoMemory, Opened, Pass, Published, Reservation};
use ecp_book::{Blank, Book, Names};
use ecp_entry::{Act, Deed, Name};
use ecp_node::Node;
use ecp_shape::Shape;
use ecp_store::MemStore;
use std::alloc::Global;
use std::marker::Brand;
use std::process::Abort;
use std::test::Fail;

/// Three rows a stripe, two of them data, on three nodes.
const SHAPE: Shape = Shape {
    n: 3,
    k: 2,
    nodes: 3,
    block: 1,
};

const LOGS: u32 = 3 + 9;

#[test]
fn a_file_of_two_blocks_is_opened(rt: HostRuntime) -> Result<(), Fail> {
    let blank = Blank::new(rt.alloc(), LOGS)?;
    two_blocks::<Brand, _>(&rt, rt.alloc(), blank)
}

fn two_blocks<N: Names, R: Abort>(rt: &R, alloc: Global, blank: Blank) -> Result<(), Fail>
    requires book { (blank ≡ N.book) × (logs_of blank ≡ LOGS) }
    requires names { (N.callers ≡ CALLERS) × (N.spare_hands ≡ SPARE) × (N.shape ≡ SHAPE) }
    requires told { N.told ≡ false }
    requires stores { (m : ℕ) → m < 3 → start_of N.stores m ≡ record { faults = 0; faultless = true } }
{
    let Scene {
        book,
        mut coord,
        mut pass,
        other: _,
        mut nodes,
    } = set_up::<N>(alloc, blank, SHAPE)?;
    put(alloc, &mut coord, &book, &mut pass, &mut nodes, "a")?;
    put(alloc, &mut coord, &book, &mut pass, &mut nodes, "b")?;
    let found = open(&mut coord, &book, &mut pass, "b")?;
    let second = Opened::Opened {
        len: 2,
        count: 2,
        first: 1,
    };
    assert_eq!(rt; found, second);
    assert_eq!(rt; pass.front(&book).len(), 3);
    assert_eq!(rt; coord.close(&book, Vec::new(alloc)).len(), 3);
    Ok(())
}

#[test]
fn an_empty_file_is_opened_and_whole(rt: HostRuntime) -> Result<(), Fail> {
    let blank = Blank::new(rt.alloc(), LOGS)?;
    empty::<Brand, _>(&rt, rt.alloc(), blank)
}

fn empty<N: Names, R: Abort>(rt: &R, alloc: Global, blank: Blank) -> Result<(), Fail>
    requires book { (blank ≡ N.book) × (logs_of blank ≡ LOGS) }
    requires names { (N.callers ≡ CALLERS) × (N.spare_hands ≡ SPARE) × (N.shape ≡ SHAPE) }
    requires told { N.told ≡ false }
    requires stores { (m : ℕ) → m < 3 → start_of N.stores m ≡ record { faults = 0; faultless = true } }
{
    let Scene {
        book,
        mut coord,
        mut pass,
        other: _,
        nodes: _,
    } = set_up::<N>(alloc, blank, SHAPE)?;
    let mut res = reserved(&mut coord, &book, &mut pass, "e", 0)?;
    let Published::Stored {
        first: 0,
        stripes: 0,
    } = coord.publish(&book, &mut pass, &mut res, Vec::new(alloc), &[])
    else {
        return Err("not stored".into());
    };
    whole(&mut coord, &book, &mut pass, "e")?;
    assert_eq!(rt; pass.front(&book).len(), 3);
    assert_eq!(rt; coord.close(&book, Vec::new(alloc)).len(), 3);
    Ok(())
}

#[test]
fn a_name_of_no_file_ends_the_call(rt: HostRuntime) -> Result<(), Fail> {
    let blank = Blank::new(rt.alloc(), LOGS)?;
    nothing::<Brand, _>(&rt, rt.alloc(), blank)
}

fn nothing<N: Names, R: Abort>(rt: &R, alloc: Global, blank: Blank) -> Result<(), Fail>
    requires book { (blank ≡ N.book) × (logs_of blank ≡ LOGS) }
    requires names { (N.callers ≡ CALLERS) × (N.spare_hands ≡ SPARE) × (N.shape ≡ SHAPE) }
    requires told { N.told ≡ false }
    requires stores { (m : ℕ) → m < 3 → start_of N.stores m ≡ record { faults = 0; faultless = true } }
{
    let Scene {
        book,
        mut coord,
        mut pass,
        other: _,
        nodes: _,
    } = set_up::<N>(alloc, blank, SHAPE)?;
    let found = open(&mut coord, &book, &mut pass, "a")?;
    assert_eq!(rt; found, Opened::NoSuchFile);
    assert_eq!(rt; pass.front(&book).len(), 1);
    assert_eq!(rt; coord.close(&book, Vec::new(alloc)).len(), 1);
    Ok(())
}

/// The file with this name has no block, and so it is read whole.
fn whole<N: Names>(
    coord: &mut Coord<N>,
    book: &Book<N>,
    pass: &mut Pass<N>,
    name: &str,
) -> Result<(), Fail>
    requires some { 1 ≤ length name.now }
    requires short { length name.now ≤ MAX_NAME }
    requires whole { IsWhole pass.old }
{
    let Opened::Opened {
        len: 0,
        count: 0,
        first: 0,
    } = open(coord, book, pass, name)?
    else {
        return Err("not opened".into());
    };
    coord.close_call(book, pass, Act::Whole);
    Ok(())
}

/// What is found by opening the file with this name. One with no block may then be closed.
fn open<N: Names>(
    coord: &mut Coord<N>,
    book: &Book<N>,
    pass: &mut Pass<N>,
    name: &str,
) -> Result<Opened, NoMemory>
    requires some { 1 ≤ length name.now }
    requires short { length name.now ≤ MAX_NAME }
    requires whole { IsWhole pass.old }
    ensures empty { (len first : ℕ) → result ≡ Ok (found.Opened len 0 first) → MayClose pass.new Whole }
{
    let deed = Deed::Cat {
        name: Name::new(name),
    };
    coord.begin(book, pass, deed)?;
    Ok(coord.open_cat(book, pass, name))
}

/// The places of a put of so many bytes.
fn reserved<N: Names>(
    coord: &mut Coord<N>,
    book: &Book<N>,
    pass: &mut Pass<N>,
    name: &str,
    len: u32,
) -> Result<Reservation<N>, Fail>
    requires some { 1 ≤ length name.now }
    requires short { length name.now ≤ MAX_NAME }
    requires whole { IsWhole pass.old }
    ensures reserved { IfOk result (λ res. IsReserved N.shape N.told pass.new res) }
    ensures len { IfOk result (λ res. res.len ≡ len) }
    ensures whole { IsWhole pass.new }
{
    let deed = Deed::Put {
        name: Name::new(name),
        len,
    };
    coord.begin(book, pass, deed)?;
    let Ok(res) = coord.reserve_put(book, pass, name, len) else {
        return Err("no places".into());
    };
    Ok(res)
}

/// A file of two bytes is stored, which are the two blocks of one stripe.
fn put<N: Names>(
    alloc: Global,
    coord: &mut Coord<N>,
    book: &Book<N>,
    pass: &mut Pass<N>,
    nodes: &mut [Node<N, MemStore>],
    name: &str,
) -> Result<(), Fail>
    requires some { 1 ≤ length name.now }
    requires short { length name.now ≤ MAX_NAME }
    requires names { (N.shape ≡ SHAPE) × (N.told ≡ false) }
    requires whole { IsWhole pass.old }
    ensures whole { IsWhole pass.new }
{
    let mut res = reserved(coord, book, pass, name, 2)?;
    let rows = rows_of(alloc, book, nodes, &res, 3)?;
    let Published::Stored { .. } = coord.publish(book, pass, &mut res, rows, &[0x41, 0x41]) else {
        return Err("not stored".into());
    };
    Ok(())
}
