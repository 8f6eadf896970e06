//! How a service is made.
ghost use Rattle.std.specs.Prelude.{◌≡◌, IfOk, IfErr, IsTrue, vec_len};
ghost use Rattle.ecp_book.specs.Logs.{logs_of};
ghost use Rattle.ecp_sequencer.specs.Passes.{first_passes};
ghost use Rattle.ecp_cluster.specs.Opening.{AreStarts, CanServe};

mod links;
mod logs;
mod seating;
mod wires;

use crate::room::Room;
use crate::service::Service;
use crate::{NoMemory, Pass};
use ecp_book::{Blank, Names};
use ecp_helper::Gate;
use ecp_shape::Shape;
use ecp_store::Store;
use logs::{Start, begin};
use seating::seat_all;
use std::alloc::Global;
use std::sync::Mutex;
use wires::lay;

impl<N: Names, S: Store + Drop, G: Gate + Drop> Service<N, S, G> {
    /// A service with a node over each of the stores, and a pass for each caller, in rising order, each with `hands` spare
    /// hands.
    ///
    /// `blank` is the book, with a log for the history, one for each node and two for each hand. A slice has `slice` bytes;
    /// where `cyclic`, a plan that is not direct has a lane for each helper, else one. A call has at most `window` slices in
    /// flight. There are `sessions` callers. Want of memory is the only error: it gives the stores back, in their order.
    pub fn open(
        alloc: Global,
        blank: Blank,
        shape: Shape,
        slice: u32,
        cyclic: bool,
        window: u32,
        hands: u32,
        sessions: u32,
        stores: Vec<S>,
        gate: G,
    ) -> Result<(Service<N, S, G>, Vec<Pass<N>>), (NoMemory, Vec<S>)>
        requires book { blank ≡ N.book }
        requires named { (shape ≡ N.shape) × (sessions ≡ N.callers) × (hands ≡ N.spare_hands) }
        requires can { CanServe shape slice window hands sessions (logs_of blank) }
        requires told { IsTrue N.told → IsTrue S.tells }
        requires stores { AreStarts S.faults S.faultless N.stores shape.nodes stores.items }
        ensures passes { IfOk result (λ r. r.1.items ≡ first_passes N.spare_hands N.callers) }
        ensures back { IfErr result (λ e. vec_len e.1 ≡ vec_len stores) }
    {
        let Ok(begun) = begin::<N>(alloc, blank, shape, slice, cyclic, hands, sessions) else {
            return Err((NoMemory, stores));
        };
        let Ok((wires, ports)) = lay::<N>(alloc, shape.nodes, sessions, window) else {
            return Err((NoMemory, stores));
        };
        let Ok(room) = Vec::with_capacity(alloc, shape.nodes as usize) else {
            return Err((NoMemory, stores));
        };
        let Start {
            book,
            coord,
            passes,
            keepers,
            past,
        } = begun;
        let helpers = seat_all(
            alloc,
            &book,
            shape,
            sessions * window,
            stores,
            keepers,
            past,
            wires,
        )?;
        let service = Service {
            book,
            coord: Mutex::new(coord),
            helpers,
            ports,
            gate,
            shape,
            window,
            room: Mutex::new(Room::new(room)),
            alloc,
        };
        Ok((service, passes))
    }
}
