//! How a coordinator and the passes of its callers are made.
ghost use Rattle.std.specs.Prelude.{◌≡◌, IfOk, length, replicate};
ghost use Rattle.ecp_book.specs.Logs.{empty_log, history_log};
ghost use Rattle.ecp_sequencer.specs.Passes.{first_passes};
ghost use Rattle.ecp_sequencer.specs.Hands.{hands_of};
ghost use Rattle.ecp_coord.specs.Coords.{CanOpen, at_start};

use crate::coord::Coord;
use crate::{NoMemory, Pass};
use ecp_book::{Book, Keeper, Names, Tag};
use ecp_catalog::{Catalog, Stamps};
use ecp_sequencer::Sequencer;
use ecp_shape::Shape;
use std::alloc::Global;

impl<N: Names> Coord<N> {
    /// A coordinator of an empty history, and a pass for each caller, in rising order, each with `hands` spare hands.
    ///
    /// `nodes` are the keepers of the nodes' logs, in rising order, which stay as they are. `ties` are the keepers of the
    /// logs behind those, two for each hand. A slice has `slice` bytes; where `cyclic`, a plan that is not direct has a
    /// lane for each helper, else one. Want of memory is the only error, and drops `history` and `ties`.
    pub fn new(
        alloc: Global,
        book: &Book<N>,
        shape: Shape,
        slice: u32,
        cyclic: bool,
        hands: u32,
        history: Keeper<N>,
        nodes: &mut Vec<Keeper<N>>,
        ties: Vec<Keeper<N>>,
    ) -> Result<(Coord<N>, Vec<Pass<N>>), NoMemory>
        requires named { shape ≡ N.shape }
        requires can { CanOpen shape N.callers N.spare_hands slice hands history nodes.old.items ties.items }
        ensures coord { IfOk result (λ r. r.0 ≡ at_start shape.nodes (hands_of N.callers N.spare_hands) slice cyclic) }
        ensures passes { IfOk result (λ r. r.1.items ≡ first_passes N.spare_hands N.callers) }
        ensures nodes { nodes.new.items ≡ nodes.old.items }
    {
        let catalog = Catalog::new(alloc, shape)?;
        let tags = tags_on(alloc, book, nodes)?;
        let all = ties.len() / 2;
        let promises = none_yet(alloc, all)?;
        let callers = all / (1 + hands as usize);
        let (sequencer, passes) = Sequencer::new(
            alloc,
            book,
            history,
            ties,
            callers as u8,
            hands as u8,
        )?;
        let coord = Coord {
            sequencer,
            catalog,
            stamps: Stamps::new(),
            repairs: 0,
            stripes: 0,
            slice,
            cyclic,
            promises,
            hands: all as u32,
            nodes: tags,
        };
        Ok((coord, passes))
    }
}

// No number for each of so many hands.
fn none_yet(alloc: Global, hands: usize) -> Result<Vec<u32>, NoMemory>
    ensures { IfOk result (λ promises. promises.items ≡ replicate hands 0) }
{
    Ok(vec![in alloc; 0; hands]?)
}

// A tag on each log, with its whole list.
fn tags_on<N: Names>(
    alloc: Global,
    book: &Book<N>,
    keepers: &mut [Keeper<N>],
) -> Result<Vec<Tag<N>>, NoMemory>
    ensures tags { IfOk result (λ tags. tags.items ≡ keepers.old) }
    ensures kept { keepers.new ≡ keepers.old }
{
    let mut tags = Vec::with_capacity(alloc, keepers.len())?;
    for at in 0..keepers.len() {
        let tag = book.tag(&mut keepers[at]);
        tags.push(tag)?;
    }
    Ok(tags)
}
