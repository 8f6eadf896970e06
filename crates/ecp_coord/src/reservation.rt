use ecp_book::{Entered, Names, Tag};
use ecp_entry::Name;
use ecp_plan::Voids;

/// The places of a put: its stripe numbers, and the nodes that keep its rows.
#[derive(Drop)]
pub struct Reservation<N: Names> {
    /// The name of the file.
    pub name: Name,
    /// How many bytes the file has.
    pub len: u32,
    /// The number of its first stripe.
    pub first: u32,
    /// How many stripes it has.
    pub stripes: u32,
    /// The mask of the nodes that were up at the point: bit m for node m.
    pub up: u32,
    /// The incarnation of each node at the point.
    pub incs: [u32; 32],
    /// The length of the history when the places were found.
    pub point: u32,
    /// The history when they were found.
    pub front: Tag<N>,
    /// At which positions earlier attempts came to nothing.
    pub voids: Voids,
}

impl<N: Names> Entered for Reservation<N> {
    ghost use Rattle.ecp_coord.specs.Puts.{booking_of};

    ghost item = { λ r. booking_of r };
}
