ghost use Rattle.std.specs.Prelude.{◌≡◌, ◌≤◌, length};
ghost use Rattle.ecp_shape.specs.Range.{IsInRange};

use crate::room::Room;
use ecp_book::{Book, Names};
use ecp_coord::Coord;
use ecp_helper::{Gate, Helper};
use ecp_requestor::Port;
use ecp_shape::Shape;
use ecp_store::Store;
use std::alloc::Global;
use std::sync::Mutex;

/// The service over nodes. Threads share it by reference, and each calls it with a pass of its own.
#[derive(Drop)]
pub struct Service<N: Names, S: Store, G: Gate> {
    pub(crate) book: Book<N>,
    pub(crate) coord: Mutex<Coord<N>>,
    /// Those of the nodes, by their numbers.
    pub(crate) helpers: Vec<Mutex<Helper<N, S>>>,
    /// Those of the callers, by their numbers.
    pub(crate) ports: Vec<Mutex<Port<N>>>,
    pub(crate) gate: G,
    pub(crate) shape: Shape,
    /// How many slices one call has in flight at most.
    pub(crate) window: u32,
    /// For the stores that come back at the end.
    pub(crate) room: Mutex<Room<N, S>>,
    pub(crate) alloc: Global,
    ghost shaped: { shape ≡ N.shape },
    ghost in_range: { IsInRange N.shape },
    ghost each_node: { length helpers.items ≡ N.shape.nodes },
    ghost each_caller: { length ports.items ≡ N.callers },
    ghost some: { 1 ≤ window },
}
