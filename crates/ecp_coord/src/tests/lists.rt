//! The blocks that a rebuild is to restore.
ghost use Rattle.std.specs.Prelude.{◌≡◌, ℕ, ◌<◌, false, true};
ghost use Rattle.ecp_book.specs.Logs.{logs_of};
ghost use Rattle.ecp_node.specs.Nodes.{start_of};
ghost use Rattle.ecp_sequencer.specs.Passes.{IsWhole};

use super::worked::{Scene, lose, put, set_up};
use super::{CALLERS, SPARE};
use crate::{Coord, NoList, Pass};
use ecp_book::{Blank, Book, Names};
use ecp_entry::Deed;
use ecp_history::Task;
use ecp_shape::Shape;
use std::alloc::Global;
use std::marker::Brand;
use std::process::Abort;
use std::test::Fail;

/// Two rows a stripe, on three nodes: of stripe s they are on the nodes s and s + 1, modulo 3.
const SHAPE: Shape = Shape {
    n: 2,
    k: 1,
    nodes: 3,
    block: 1,
};

const LOGS: u32 = 3 + 9;

#[test]
fn a_node_has_a_task_for_each_lost_block_or_a_reason(rt: HostRuntime) -> Result<(), Fail> {
    let blank = Blank::new(rt.alloc(), LOGS)?;
    listed::<Brand, _>(&rt, rt.alloc(), blank)
}

fn listed<N: Names, R: Abort>(rt: &R, alloc: Global, blank: Blank) -> Result<(), Fail>
    requires book { (blank ≡ N.book) × (logs_of blank ≡ LOGS) }
    requires names { (N.callers ≡ CALLERS) × (N.spare_hands ≡ SPARE) × (N.shape ≡ SHAPE) }
    requires told { N.told ≡ false }
    requires stores { (m : ℕ) → m < 3 → start_of N.stores m ≡ record { faults = 0; faultless = true } }
{
    let Scene {
        book,
        mut coord,
        mut pass,
        other: _,
        mut nodes,
    } = set_up::<N>(alloc, blank, SHAPE)?;
    put(alloc, &mut coord, &book, &mut pass, &mut nodes, SHAPE)?;
    lose(&mut coord, &book, &mut pass, 1)?;
    let neither = refused(alloc, &mut coord, &book, &mut pass, 7, 9)?;
    let no_target = refused(alloc, &mut coord, &book, &mut pass, 0, 9)?;
    let down = refused(alloc, &mut coord, &book, &mut pass, 0, 1)?;
    assert_eq!(rt; neither, NoList::NoSuchNode(7));
    assert_eq!(rt; no_target, NoList::NoSuchNode(9));
    assert_eq!(rt; down, NoList::TargetDown(1));
    let none = tasks_of(alloc, &mut coord, &book, &mut pass, 0, 2)?;
    let tasks = tasks_of(alloc, &mut coord, &book, &mut pass, 1, 2)?;
    assert!(rt; none.is_empty());
    let only = Task {
        part: 1,
        stripe: 0,
        row: 1,
    };
    assert_eq!(rt; tasks.as_slice(), [only].as_slice());
    assert_eq!(rt; coord.close(&book, Vec::new(alloc)).len(), 7);
    Ok(())
}

/// Why a rebuild of one node onto another gets no tasks.
fn refused<N: Names>(
    alloc: Global,
    coord: &mut Coord<N>,
    book: &Book<N>,
    pass: &mut Pass<N>,
    from: u32,
    to: u32,
) -> Result<NoList, Fail>
    requires whole { IsWhole pass.old }
    ensures whole { IsWhole pass.new }
{
    coord.begin(book, pass, Deed::Rebuild { from, to })?;
    let Err(why) = coord.list(alloc, book, pass, from, to) else {
        return Err("tasks".into());
    };
    Ok(why)
}

/// The tasks of such a rebuild.
fn tasks_of<N: Names>(
    alloc: Global,
    coord: &mut Coord<N>,
    book: &Book<N>,
    pass: &mut Pass<N>,
    from: u32,
    to: u32,
) -> Result<Vec<Task>, Fail>
    requires whole { IsWhole pass.old }
    ensures whole { IsWhole pass.new }
{
    coord.begin(book, pass, Deed::Rebuild { from, to })?;
    let Ok(tasks) = coord.list(alloc, book, pass, from, to) else {
        return Err("no tasks".into());
    };
    Ok(tasks)
}
