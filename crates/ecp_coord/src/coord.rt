use ecp_book::{Names, Tag};
use ecp_catalog::{Catalog, Stamps};
use ecp_sequencer::Sequencer;
use std::marker::Model;

/// The coordinator: the history, and what it says of files, blocks and nodes.
///
/// Callers share it behind a lock. Each event is one call under one hold of that lock; after it the pass's front is the
/// history as the event left it. `book` is the one that its keepers, tags and passes belong to.
#[derive(Drop)]
pub struct Coord<N: Names> {
    pub(crate) sequencer: Sequencer<N>,
    pub(crate) catalog: Catalog<N>,
    pub(crate) stamps: Stamps,
    /// How many repairs were planned.
    pub(crate) repairs: u64,
    /// How many stripes all reservations have together.
    pub(crate) stripes: u32,
    /// How many bytes a slice has.
    pub(crate) slice: u32,
    /// Whether a plan that is not direct has a lane for each helper.
    pub(crate) cyclic: bool,
    /// For each hand, how many more stripe numbers it may take for later attempts of its put.
    pub(crate) promises: Vec<u32>,
    /// How many hands there are.
    pub(crate) hands: u32,
    /// A tag on the log of each node.
    pub(crate) nodes: Vec<Tag<N>>,
}

impl<N: Names> Model for Coord<N> {
    ghost use Rattle.ecp_coord.specs.Coords.{CoordState, IsCoord, heard, parts_of};

    ghost Value = { CoordState };

    ghost view = { λ c. record { sequence = c.sequencer; stamps = c.stamps; repairs = c.repairs; stripes = c.stripes; slice = c.slice; cyclic = c.cyclic; nodes = heard c.nodes.items } };

    ghost invariant = { λ c. IsCoord N.shape N.told N.callers N.spare_hands c.sequencer (parts_of c.catalog c.hands c.slice c.nodes.items c.stripes c.promises.items) };
}
