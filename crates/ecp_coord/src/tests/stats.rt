//! The sizes and the live blocks of a file.
ghost use Rattle.std.specs.Prelude.{◌≡◌, ℕ, ◌<◌, ◌≤◌, IfOk, false, length, true};
ghost use Rattle.ecp_shape.specs.declared.limits.TheConstants.{MAX_NAME};
ghost use Rattle.ecp_book.specs.Logs.{logs_of};
ghost use Rattle.ecp_node.specs.Nodes.{start_of};
ghost use Rattle.ecp_sequencer.specs.Passes.{IsWhole};
ghost use Rattle.ecp_coord.specs.Puts.{IsReserved};

use super::worked::{Scene, lose, put, set_up};
use super::{CALLERS, SPARE};
use crate::{Coord, NoMemory, Pass, Published, Reservation};
use ecp_book::{Blank, Book, Names};
use ecp_entry::{Act, Deed, Name};
use ecp_shape::Shape;
use std::alloc::Global;
use std::marker::Brand;
use std::process::Abort;
use std::test::Fail;

/// Three rows a stripe, one of them data, on three nodes.
const SHAPE: Shape = Shape {
    n: 3,
    k: 1,
    nodes: 3,
    block: 1,
};

/// The same with two rows of data.
const TWO: Shape = Shape {
    n: 3,
    k: 2,
    nodes: 3,
    block: 1,
};

const LOGS: u32 = 3 + 9;

#[test]
fn all_live_rows_of_a_file_are_counted(rt: HostRuntime) -> Result<(), Fail> {
    let blank = Blank::new(rt.alloc(), LOGS)?;
    counted::<Brand, _>(&rt, rt.alloc(), blank)
}

fn counted<N: Names, R: Abort>(rt: &R, alloc: Global, blank: Blank) -> Result<(), Fail>
    requires book { (blank ≡ N.book) × (logs_of blank ≡ LOGS) }
    requires names { (N.callers ≡ CALLERS) × (N.spare_hands ≡ SPARE) × (N.shape ≡ SHAPE) }
    requires told { N.told ≡ false }
    requires stores { (m : ℕ) → m < 3 → start_of N.stores m ≡ record { faults = 0; faultless = true } }
{
    let Scene {
        book,
        mut coord,
        mut pass,
        other: _,
        mut nodes,
    } = set_up::<N>(alloc, blank, SHAPE)?;
    let none = stat(&mut coord, &book, &mut pass, "a")?;
    put(alloc, &mut coord, &book, &mut pass, &mut nodes, SHAPE)?;
    let whole = stat(&mut coord, &book, &mut pass, "a")?;
    lose(&mut coord, &book, &mut pass, 1)?;
    let rest = stat(&mut coord, &book, &mut pass, "a")?;
    assert_eq!(rt; none, Act::NoSuchFile);
    assert_eq!(rt; whole, one_block(3));
    assert_eq!(rt; rest, one_block(2));
    assert_eq!(rt; coord.close(&book, Vec::new(alloc)).len(), 5);
    Ok(())
}

#[test]
fn an_empty_file_has_no_blocks(rt: HostRuntime) -> Result<(), Fail> {
    let blank = Blank::new(rt.alloc(), LOGS)?;
    empty::<Brand, _>(&rt, rt.alloc(), blank)
}

fn empty<N: Names, R: Abort>(rt: &R, alloc: Global, blank: Blank) -> Result<(), Fail>
    requires book { (blank ≡ N.book) × (logs_of blank ≡ LOGS) }
    requires names { (N.callers ≡ CALLERS) × (N.spare_hands ≡ SPARE) × (N.shape ≡ TWO) }
    requires told { N.told ≡ false }
    requires stores { (m : ℕ) → m < 3 → start_of N.stores m ≡ record { faults = 0; faultless = true } }
{
    let Scene {
        book,
        mut coord,
        mut pass,
        other: _,
        nodes: _,
    } = set_up::<N>(alloc, blank, TWO)?;
    let mut res = reserved(&mut coord, &book, &mut pass)?;
    let Published::Stored {
        first: 0,
        stripes: 0,
    } = coord.publish(&book, &mut pass, &mut res, Vec::new(alloc), &[])
    else {
        return Err("not stored".into());
    };
    let found = stat(&mut coord, &book, &mut pass, "e")?;
    let nothing = Act::Stat {
        len: 0,
        count: 0,
        live: 0,
    };
    assert_eq!(rt; found, nothing);
    assert_eq!(rt; coord.close(&book, Vec::new(alloc)).len(), 2);
    Ok(())
}

/// The places of a put of no bytes.
fn reserved<N: Names>(
    coord: &mut Coord<N>,
    book: &Book<N>,
    pass: &mut Pass<N>,
) -> Result<Reservation<N>, Fail>
    requires whole { IsWhole pass.old }
    ensures reserved { IfOk result (λ res. IsReserved N.shape N.told pass.new res) }
    ensures len { IfOk result (λ res. res.len ≡ 0) }
{
    let name = Name::new("e");
    coord.begin(book, pass, Deed::Put { name, len: 0 })?;
    let Ok(res) = coord.reserve_put(book, pass, "e", 0) else {
        return Err("no places".into());
    };
    Ok(res)
}

/// What is said of the file with this name.
fn stat<N: Names>(
    coord: &mut Coord<N>,
    book: &Book<N>,
    pass: &mut Pass<N>,
    name: &str,
) -> Result<Act, NoMemory>
    requires some { 1 ≤ length name.now }
    requires short { length name.now ≤ MAX_NAME }
    requires whole { IsWhole pass.old }
    ensures whole { IsWhole pass.new }
{
    let deed = Deed::Stat {
        name: Name::new(name),
    };
    coord.begin(book, pass, deed)?;
    Ok(coord.stat(book, pass, name))
}

/// A file of one byte, of which so many rows are live.
fn one_block(live: u32) -> Act {
    Act::Stat {
        len: 1,
        count: 1,
        live,
    }
}
