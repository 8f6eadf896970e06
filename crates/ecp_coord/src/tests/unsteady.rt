//! How many attempts of a put may come to nothing.
ghost use Rattle.std.specs.Prelude.{◌≡◌, ◌+◌, IfOk};
ghost use Rattle.ecp_shape.specs.Range.{IsInRange};
ghost use Rattle.ecp_book.specs.Logs.{logs_of};
ghost use Rattle.ecp_sequencer.specs.Passes.{IsWhole};
ghost use Rattle.ecp_coord.specs.Puts.{IsReserved};

use super::worked::{again, lose, opened_over, reserved};
use super::{CALLERS, Parts, SPARE};
use crate::{Coord, Pass, Renewed, Reservation};
use ecp_book::{Blank, Book, Names};
use ecp_shape::Shape;
use std::alloc::Global;
use std::marker::Brand;
use std::process::Abort;
use std::test::Fail;

/// Two rows a stripe, on as many nodes as leave two up after sixteen losses.
const ENOUGH: Shape = Shape {
    n: 2,
    k: 1,
    nodes: 18,
    block: 1,
};

/// The same rows, with one node up after sixteen losses.
const FEW: Shape = Shape {
    n: 2,
    k: 1,
    nodes: 17,
    block: 1,
};

#[test]
fn a_put_is_unsteady_at_sixteen_losses_and_not_at_fifteen(rt: HostRuntime) -> Result<(), Fail> {
    let blank = Blank::new(rt.alloc(), 18 + 9)?;
    unsteady::<Brand, _>(&rt, rt.alloc(), blank)
}

fn unsteady<N: Names, R: Abort>(rt: &R, alloc: Global, blank: Blank) -> Result<(), Fail>
    requires book { (blank ≡ N.book) × (logs_of blank ≡ 18 + 9) }
    requires names { (N.callers ≡ CALLERS) × (N.spare_hands ≡ SPARE) × (N.shape ≡ ENOUGH) }
{
    let at = sixteen::<N, R>(rt, alloc, blank, ENOUGH, Renewed::Unsteady)?;
    assert_eq!(rt; at, [0, 1, 2, 3, 4, 5, 6, 7, 8, 9, 10, 11, 12, 13, 14, 15]);
    Ok(())
}

#[test]
fn too_few_nodes_come_before_unsteady(rt: HostRuntime) -> Result<(), Fail> {
    let blank = Blank::new(rt.alloc(), 17 + 9)?;
    few::<Brand, _>(&rt, rt.alloc(), blank)
}

fn few<N: Names, R: Abort>(rt: &R, alloc: Global, blank: Blank) -> Result<(), Fail>
    requires book { (blank ≡ N.book) × (logs_of blank ≡ 17 + 9) }
    requires names { (N.callers ≡ CALLERS) × (N.spare_hands ≡ SPARE) × (N.shape ≡ FEW) }
{
    let at = sixteen::<N, R>(rt, alloc, blank, FEW, Renewed::TooFewNodes(1))?;
    assert_eq!(rt; at[15], 15);
    Ok(())
}

/// Sixteen nodes of a put are lost, one after the other. After each but the last there is a next attempt; after the last
/// this is the answer. At which positions that was.
fn sixteen<N: Names, R: Abort>(
    rt: &R,
    alloc: Global,
    blank: Blank,
    shape: Shape,
    answer: Renewed,
) -> Result<[u32; 16], Fail>
    requires range { IsInRange shape }
    requires book { (blank ≡ N.book) × (logs_of blank ≡ shape.nodes + 9) }
    requires names { (N.callers ≡ CALLERS) × (N.spare_hands ≡ SPARE) × (N.shape ≡ shape) }
{
    let Parts {
        book,
        mut coord,
        mut passes,
        nodes: _,
    } = opened_over::<N>(alloc, blank, shape)?;
    let mut pass = passes.pop().ok_or("caller 1")?;
    let mut other = passes.pop().ok_or("caller 0")?;
    let mut res = reserved(&mut coord, &book, &mut pass)?;
    again_each(&mut coord, &book, &mut pass, &mut other, &mut res, 15)?;
    assert_eq!(rt; (res.first, res.voids.len), (15, 15));
    lose(&mut coord, &book, &mut other, 15)?;
    let last = coord.renew(&book, &mut pass, &mut res);
    assert_eq!(rt; (last, res.voids.len), (answer, 16));
    assert_eq!(rt; coord.close(&book, passes).len(), 17);
    Ok(res.voids.at)
}

/// So many nodes are lost, and for each there is a next attempt.
fn again_each<N: Names>(
    coord: &mut Coord<N>,
    book: &Book<N>,
    pass: &mut Pass<N>,
    other: &mut Pass<N>,
    res: &mut Reservation<N>,
    count: u32,
) -> Result<(), Fail>
    requires reserved { IsReserved N.shape N.told pass.old res.old }
    requires other { IsWhole other.old }
    ensures reserved { IfOk result (λ _. IsReserved N.shape N.told pass.new res.new) }
    ensures other { IsWhole other.new }
{
    for node in 0..count {
        lose(coord, book, other, node)?;
        again(coord, book, pass, res)?;
    }
    Ok(())
}
