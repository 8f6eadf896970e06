ghost use Rattle.std.specs.Prelude.{◌≡◌, false, IfOk};
ghost use Rattle.ecp_book.specs.Logs.{logs_of};
ghost use Rattle.ecp_sequencer.specs.Passes.{first_passes};
ghost use Rattle.ecp_coord.specs.Coords.{at_start, AreNodeLogs};

mod calls;
mod cats;
mod lists;
mod plans;
mod puts;
mod reads;
mod refusals;
mod spine;
mod stats;
mod tries;
mod unsteady;
mod worked;

use crate::{Coord, NoMemory, Pass};
use ecp_book::{Blank, Book, Keeper, Names};
use ecp_shape::Shape;
use std::alloc::Global;

/// The sizes of the tests: two rows a stripe, on two nodes.
const SHAPE: Shape = Shape {
    n: 2,
    k: 1,
    nodes: 2,
    block: 1,
};

/// How many callers there are, and how many spare hands each has.
const CALLERS: u32 = 2;

const SPARE: u32 = 1;

/// How many logs that takes: the history's, those of the nodes, and two for each hand.
const LOGS: u32 = 1 + 2 + 2 * 4;

/// A book, the coordinator, its passes, and the keepers of the nodes' logs.
#[derive(Drop)]
struct Parts<N: Names> {
    book: Book<N>,
    coord: Coord<N>,
    passes: Vec<Pass<N>>,
    nodes: Vec<Keeper<N>>,
}

fn opened<N: Names>(alloc: Global, blank: Blank) -> Result<Parts<N>, NoMemory>
    requires book { (blank ≡ N.book) × (logs_of blank ≡ LOGS) }
    requires names { (N.callers ≡ CALLERS) × (N.spare_hands ≡ SPARE) × (N.shape ≡ SHAPE) }
    ensures coord { IfOk result (λ o. o.coord ≡ at_start 2 4 1 false) }
    ensures passes { IfOk result (λ o. o.passes.items ≡ first_passes 1 2) }
    ensures nodes { IfOk result (λ o. AreNodeLogs 2 o.nodes.items) }
{
    let (book, mut keepers) = Book::<N>::open(alloc, blank)?;
    let ties = keepers.split_off(3)?;
    let mut nodes = keepers.split_off(1)?;
    let history = keepers.swap_remove(0);
    let (coord, passes) = Coord::new(
        alloc, &book, SHAPE, 1, false, SPARE, history, &mut nodes, ties,
    )?;
    Ok(Parts {
        book,
        coord,
        passes,
        nodes,
    })
}
