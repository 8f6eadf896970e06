//! The book of a service, and the coordinator over it.
ghost use Rattle.std.specs.Prelude.{◌≡◌, IfOk};
ghost use Rattle.ecp_book.specs.Logs.{empty_log, history_log, logs_of};
ghost use Rattle.ecp_sequencer.specs.Passes.{first_passes};
ghost use Rattle.ecp_coord.specs.Coords.{AreNodeLogs};
ghost use Rattle.ecp_cluster.specs.Opening.{CanServe};

use crate::{NoMemory, Pass};
use ecp_book::{Blank, Book, Keeper, Names, Tag};
use ecp_coord::Coord;
use ecp_shape::Shape;
use std::alloc::Global;

/// A book, the coordinator of an empty history with the passes of its callers, the keepers of the nodes' logs, and a tag on
/// the history.
#[derive(Drop)]
pub(super) struct Start<N: Names> {
    pub(super) book: Book<N>,
    pub(super) coord: Coord<N>,
    pub(super) passes: Vec<Pass<N>>,
    pub(super) keepers: Vec<Keeper<N>>,
    pub(super) past: Tag<N>,
}

/// Opens the book, and makes the coordinator. Want of memory is the only error, and drops the blank.
pub(super) fn begin<N: Names>(
    alloc: Global,
    blank: Blank,
    shape: Shape,
    slice: u32,
    cyclic: bool,
    hands: u32,
    sessions: u32,
) -> Result<Start<N>, NoMemory>
    requires book { blank ≡ N.book }
    requires named { (shape ≡ N.shape) × (sessions ≡ N.callers) × (hands ≡ N.spare_hands) }
    requires can { CanServe shape slice 1 hands sessions (logs_of blank) }
    ensures passes { IfOk result (λ s. s.passes.items ≡ first_passes N.spare_hands N.callers) }
    ensures keepers { IfOk result (λ s. AreNodeLogs N.shape.nodes s.keepers.items) }
    ensures past { IfOk result (λ s. s.past ≡ empty_log history_log) }
{
    let (book, mut logs) = Book::<N>::open(alloc, blank)?;
    let ties = logs.split_off(1 + shape.nodes as usize)?;
    let mut keepers = logs.split_off(1)?;
    let mut history = logs.swap_remove(0);
    let past = book.tag(&mut history);
    let (coord, passes) = Coord::new(
        alloc,
        &book,
        shape,
        slice,
        cyclic,
        hands,
        history,
        &mut keepers,
        ties,
    )?;
    Ok(Start {
        book,
        coord,
        passes,
        keepers,
        past,
    })
}
