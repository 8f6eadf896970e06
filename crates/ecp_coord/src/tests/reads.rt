//! Reads of a stored file.
ghost use Rattle.std.specs.Prelude.{◌≡◌, ℕ, ◌<◌, IfOk, false, true};
ghost use Rattle.ecp_book.specs.Logs.{logs_of};
ghost use Rattle.ecp_node.specs.Nodes.{start_of};
ghost use Rattle.ecp_sequencer.specs.Passes.{IsWhole};
ghost use Rattle.ecp_coord.specs.Plans.{IsPlanned};

use super::worked::{Scene, lose, put, set_up};
use super::{CALLERS, SPARE};
use crate::{Ask, Coord, Pass, Replanned};
use ecp_book::{Blank, Book, Names};
use ecp_entry::{Deed, Name};
use ecp_plan::Plan;
use ecp_shape::Shape;
use std::alloc::Global;
use std::marker::Brand;
use std::process::Abort;
use std::test::Fail;

/// Three rows a stripe, one of them data, on three nodes.
const SHAPE: Shape = Shape {
    n: 3,
    k: 1,
    nodes: 3,
    block: 1,
};

const LOGS: u32 = 3 + 9;

#[test]
fn helpers_take_turns(rt: HostRuntime) -> Result<(), Fail> {
    let blank = Blank::new(rt.alloc(), LOGS)?;
    read_in_turn::<Brand, _>(&rt, rt.alloc(), blank)
}

fn read_in_turn<N: Names, R: Abort>(rt: &R, alloc: Global, blank: Blank) -> Result<(), Fail>
    requires book { (blank ≡ N.book) × (logs_of blank ≡ LOGS) }
    requires names { (N.callers ≡ CALLERS) × (N.spare_hands ≡ SPARE) × (N.shape ≡ SHAPE) }
    requires told { N.told ≡ false }
    requires stores { (m : ℕ) → m < 3 → start_of N.stores m ≡ record { faults = 0; faultless = true } }
{
    let Scene {
        book,
        mut coord,
        mut pass,
        other: _,
        mut nodes,
    } = set_up::<N>(alloc, blank, SHAPE)?;
    put(alloc, &mut coord, &book, &mut pass, &mut nodes, SHAPE)?;
    let direct = read(alloc, &mut coord, &book, &mut pass)?;
    lose(&mut coord, &book, &mut pass, 0)?;
    let first = read(alloc, &mut coord, &book, &mut pass)?;
    let second = read(alloc, &mut coord, &book, &mut pass)?;
    let third = read(alloc, &mut coord, &book, &mut pass)?;
    assert_eq!(rt; (direct, first, second, third), (0, 1, 2, 1));
    assert_eq!(rt; coord.close(&book, Vec::new(alloc)).len(), 6);
    Ok(())
}

#[test]
fn a_plan_stands_as_long_as_its_helper(rt: HostRuntime) -> Result<(), Fail> {
    let blank = Blank::new(rt.alloc(), LOGS)?;
    read_anew::<Brand, _>(&rt, rt.alloc(), blank)
}

fn read_anew<N: Names, R: Abort>(rt: &R, alloc: Global, blank: Blank) -> Result<(), Fail>
    requires book { (blank ≡ N.book) × (logs_of blank ≡ LOGS) }
    requires names { (N.callers ≡ CALLERS) × (N.spare_hands ≡ SPARE) × (N.shape ≡ SHAPE) }
    requires told { N.told ≡ false }
    requires stores { (m : ℕ) → m < 3 → start_of N.stores m ≡ record { faults = 0; faultless = true } }
{
    let Scene {
        book,
        mut coord,
        mut pass,
        mut other,
        mut nodes,
    } = set_up::<N>(alloc, blank, SHAPE)?;
    put(alloc, &mut coord, &book, &mut pass, &mut nodes, SHAPE)?;
    let mut plan = kept(alloc, &mut coord, &book, &mut pass, &mut other)?;
    let first = helper(&plan)?;
    let second = moved(rt, &mut coord, &book, &mut pass, &mut other, &mut plan)?;
    assert_eq!(rt; (first, second), (0, 2));
    assert_eq!(rt; coord.close(&book, Vec::new(alloc)).len(), 4);
    Ok(())
}

/// The plan of a read, which stands before and after the loss of a node that does not help.
fn kept<N: Names>(
    alloc: Global,
    coord: &mut Coord<N>,
    book: &Book<N>,
    pass: &mut Pass<N>,
    other: &mut Pass<N>,
) -> Result<Plan<N>, Fail>
    requires whole { IsWhole pass.old }
    requires other { IsWhole other.old }
    ensures planned { IfOk result (λ plan. IsPlanned N.shape N.told pass.new plan) }
    ensures other { IsWhole other.new }
{
    let mut plan = planned(alloc, coord, book, pass)?;
    stands(coord, book, pass, &mut plan)?;
    lose(coord, book, other, 1)?;
    stands(coord, book, pass, &mut plan)?;
    Ok(plan)
}

/// The node of the helper is lost, and the read ends by its next attempt: the row that helps then.
fn moved<N: Names, R: Abort>(
    rt: &R,
    coord: &mut Coord<N>,
    book: &Book<N>,
    pass: &mut Pass<N>,
    other: &mut Pass<N>,
    plan: &mut Plan<N>,
) -> Result<u8, Fail>
    requires names { (N.shape ≡ SHAPE) × (N.told ≡ false) }
    requires planned { IsPlanned N.shape N.told pass.old plan.old }
    requires other { IsWhole other.old }
{
    lose(coord, book, other, 0)?;
    moves(coord, book, pass, plan)?;
    assert_eq!(rt; plan.attempt, 2);
    assert_eq!(rt; (plan.voids.len, plan.voids.at[0]), (1, 2));
    let row = helper(plan)?;
    end(coord, book, pass, plan);
    Ok(row)
}

/// A whole read of the byte: the row that helps.
fn read<N: Names>(
    alloc: Global,
    coord: &mut Coord<N>,
    book: &Book<N>,
    pass: &mut Pass<N>,
) -> Result<u8, Fail>
    requires names { (N.shape ≡ SHAPE) × (N.told ≡ false) }
    requires whole { IsWhole pass.old }
    ensures whole { IsWhole pass.new }
{
    let mut plan = planned(alloc, coord, book, pass)?;
    let row = helper(&plan)?;
    end(coord, book, pass, &mut plan);
    Ok(row)
}

/// The plan of a read of the byte.
fn planned<N: Names>(
    alloc: Global,
    coord: &mut Coord<N>,
    book: &Book<N>,
    pass: &mut Pass<N>,
) -> Result<Plan<N>, Fail>
    requires whole { IsWhole pass.old }
    ensures planned { IfOk result (λ plan. IsPlanned N.shape N.told pass.new plan) }
    ensures whole { IsWhole pass.new }
{
    let deed = Deed::Read {
        name: Name::new("a"),
        index: 0,
    };
    coord.begin(book, pass, deed)?;
    let ask = Ask::Read {
        name: "a",
        index: 0,
    };
    let Ok(plan) = coord.plan(alloc, book, pass, ask) else {
        return Err("no plan".into());
    };
    Ok(plan)
}

/// The row that alone helps.
fn helper<N: Names>(plan: &Plan<N>) -> Result<u8, Fail> {
    if plan.hops.len() != 1 {
        return Err("not one helper".into());
    }
    Ok(plan.hops[0].row)
}

/// The plan still stands.
fn stands<N: Names>(
    coord: &mut Coord<N>,
    book: &Book<N>,
    pass: &mut Pass<N>,
    plan: &mut Plan<N>,
) -> Result<(), Fail>
    requires { IsPlanned N.shape N.told pass.old plan.old }
    ensures { IfOk result (λ _. IsPlanned N.shape N.told pass.new plan.new) }
{
    let Replanned::StillGood = coord.replan(book, pass, plan) else {
        return Err("not still good".into());
    };
    Ok(())
}

/// The plan becomes that of the next attempt.
fn moves<N: Names>(
    coord: &mut Coord<N>,
    book: &Book<N>,
    pass: &mut Pass<N>,
    plan: &mut Plan<N>,
) -> Result<(), Fail>
    requires { IsPlanned N.shape N.told pass.old plan.old }
    ensures { IfOk result (λ _. IsPlanned N.shape N.told pass.new plan.new) }
{
    let Replanned::Planned = coord.replan(book, pass, plan) else {
        return Err("not planned anew".into());
    };
    Ok(())
}

/// The read ends with the byte.
fn end<N: Names>(coord: &mut Coord<N>, book: &Book<N>, pass: &mut Pass<N>, plan: &mut Plan<N>)
    requires names { (N.shape ≡ SHAPE) × (N.told ≡ false) }
    requires planned { IsPlanned N.shape N.told pass.old plan.old }
    ensures whole { IsWhole pass.new }
{
    coord.finish(book, pass, plan, &[0x41]);
}
