//! The coordinator: each of its events appends to one history, which stays legal, and answers by the plain table that
//! this history makes.
//!
//! A [`Coord`] is three things: the sequencer (`ecp_sequencer`), which alone adds to the history and ties each hand to it;
//! the catalog (`ecp_catalog`), which is the outline of that history and has every answer; and the stamps, which say when
//! each node helped last. Beside them it has a tag on the log of each node. It has no byte of a file.
//!
//! An event does four things, under one hold of the coordinator's lock: it meets the pass, decides by the catalog, enters
//! what it decided, and brings the catalog up to the longer history. The decisions are functions over the catalog alone.
//!
//! The layer above may rely on what each event says of the pass (`specs/Calls.antt`, and `Event` and `Called` of
//! `ecp_sequencer`), on its answer by the table of the history before it (`specs/Losing.antt`, `specs/Joining.antt`,
//! `specs/Stating.antt`, `specs/Opening.antt`, `specs/Listing.antt`), and on what `settle` and `close` teach at the end. A call that is read part
//! by part ends by the parts that stand in its pass's front (`specs/Closing.antt`). Room is taken by `new`, `begin`, `plan` and `reserve_put` alone.
#![tactic(auto)]

mod ask;
mod asking;
mod beginning;
mod call_closing;
mod closing;
mod coord;
mod ending;
mod entering;
mod finishing;
mod giving_up;
mod helping;
mod joining;
mod listing;
mod losing;
mod no_list;
mod no_places;
mod no_plan;
mod node_act;
mod opened;
mod opening;
mod places;
mod planning;
mod published;
mod publishing;
mod refusing;
mod renewed;
mod renewing;
mod replanned;
mod replanning;
mod reservation;
mod reserving;
mod start;
mod stating;

pub use ask::Ask;
pub use coord::Coord;
pub use ecp_sequencer::Pass;
pub use ecp_store::NoMemory;
pub use no_list::NoList;
pub use no_places::NoPlaces;
pub use no_plan::NoPlan;
pub use node_act::NodeAct;
pub use opened::Opened;
pub use published::Published;
pub use renewed::Renewed;
pub use replanned::Replanned;
pub use reservation::Reservation;

#[cfg(test)]
mod tests;
