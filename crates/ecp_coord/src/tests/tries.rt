//! Attempts of a put that losses overtook.
ghost use Rattle.std.specs.Prelude.{◌≡◌, ℕ, ◌<◌, IfOk, false, true};
ghost use Rattle.ecp_book.specs.Logs.{logs_of};
ghost use Rattle.ecp_node.specs.Nodes.{start_of};
ghost use Rattle.ecp_sequencer.specs.Passes.{IsWhole};
ghost use Rattle.ecp_coord.specs.OneByte.{AreRowsOf};
ghost use Rattle.ecp_coord.specs.Puts.{IsReserved};

use super::worked::{Scene, again, lose, publish, reserved, rows_of, set_up};
use super::{CALLERS, SPARE};
use crate::{Coord, NodeAct, Pass, Published, Reservation};
use ecp_book::{Blank, Book, Names};
use ecp_node::{Node, Receipt};
use ecp_shape::Shape;
use ecp_store::MemStore;
use std::alloc::Global;
use std::marker::Brand;
use std::process::Abort;
use std::test::Fail;

/// Two rows a stripe, on three nodes.
const SHAPE: Shape = Shape {
    n: 2,
    k: 1,
    nodes: 3,
    block: 1,
};

const LOGS: u32 = 3 + 9;

#[test]
fn an_overtaken_file_is_stored_by_the_next_attempt(rt: HostRuntime) -> Result<(), Fail> {
    let blank = Blank::new(rt.alloc(), LOGS)?;
    stored_later::<Brand, _>(&rt, rt.alloc(), blank)
}

fn stored_later<N: Names, R: Abort>(rt: &R, alloc: Global, blank: Blank) -> Result<(), Fail>
    requires book { (blank ≡ N.book) × (logs_of blank ≡ LOGS) }
    requires names { (N.callers ≡ CALLERS) × (N.spare_hands ≡ SPARE) × (N.shape ≡ SHAPE) }
    requires told { N.told ≡ false }
    requires stores { (m : ℕ) → m < 3 → start_of N.stores m ≡ record { faults = 0; faultless = true } }
{
    let Scene {
        book,
        mut coord,
        mut pass,
        mut other,
        mut nodes,
    } = set_up::<N>(alloc, blank, SHAPE)?;
    let mut res = first_try(
        rt, alloc, &mut coord, &book, &mut pass, &mut other, &mut nodes,
    )?;
    again(&mut coord, &book, &mut pass, &mut res)?;
    second_try(
        rt, alloc, &mut coord, &book, &mut pass, &mut res, &mut nodes,
    )?;
    assert_eq!(rt; coord.close(&book, Vec::new(alloc)).len(), 2);
    Ok(())
}

/// The places of a put whose rows are kept, and of whose nodes one is lost then.
fn first_try<N: Names, R: Abort>(
    rt: &R,
    alloc: Global,
    coord: &mut Coord<N>,
    book: &Book<N>,
    pass: &mut Pass<N>,
    other: &mut Pass<N>,
    nodes: &mut [Node<N, MemStore>],
) -> Result<Reservation<N>, Fail>
    requires names { (N.shape ≡ SHAPE) × (N.told ≡ false) }
    requires whole { IsWhole pass.old }
    requires other { IsWhole other.old }
    ensures reserved { IfOk result (λ res. IsReserved N.shape N.told pass.new res) }
    ensures len { IfOk result (λ res. res.len ≡ 1) }
{
    let mut res = reserved(coord, book, pass)?;
    let rows = rows_of(alloc, book, nodes, &res, 2)?;
    let lost = lose(coord, book, other, 0)?;
    let at = overtaken(coord, book, pass, &mut res, rows)?;
    assert_eq!(rt; lost, NodeAct::Lost(0));
    assert_eq!(rt; (res.first, res.up, at), (0, 7, 0));
    Ok(res)
}

/// The next attempt of a put is stored, on the nodes that are left.
fn second_try<N: Names, R: Abort>(
    rt: &R,
    alloc: Global,
    coord: &mut Coord<N>,
    book: &Book<N>,
    pass: &mut Pass<N>,
    res: &mut Reservation<N>,
    nodes: &mut [Node<N, MemStore>],
) -> Result<(), Fail>
    requires names { (N.shape ≡ SHAPE) × (N.told ≡ false) }
    requires reserved { IsReserved N.shape N.told pass.old res.old }
    requires len { res.old.len ≡ 1 }
{
    let rows = rows_of(alloc, book, nodes, res, 2)?;
    let Published::Stored { first, stripes } = publish(coord, book, pass, res, rows, SHAPE) else {
        return Err("not stored".into());
    };
    assert_eq!(rt; (first, stripes, res.up), (1, 1, 6));
    assert_eq!(rt; (res.voids.len, res.voids.at[0]), (1, 0));
    Ok(())
}

/// The position of the loss that overtook a put of one byte. Both receipts come back.
fn overtaken<N: Names>(
    coord: &mut Coord<N>,
    book: &Book<N>,
    pass: &mut Pass<N>,
    res: &mut Reservation<N>,
    rows: Vec<Receipt<N>>,
) -> Result<u32, Fail>
    requires names { (N.shape ≡ SHAPE) × (N.told ≡ false) }
    requires reserved { IsReserved N.shape N.told pass.old res.old }
    requires len { res.old.len ≡ 1 }
    requires rows { AreRowsOf res.old 2 rows.items }
    ensures reserved { IfOk result (λ _. IsReserved N.shape N.told pass.new res.new) }
    ensures len { IfOk result (λ _. res.new.len ≡ 1) }
{
    let Published::Overtaken(at, rows) = publish(coord, book, pass, res, rows, SHAPE) else {
        return Err("not overtaken".into());
    };
    if rows.len() != 2 {
        return Err("not all receipts".into());
    }
    Ok(at)
}
