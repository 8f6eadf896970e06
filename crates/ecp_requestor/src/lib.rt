//! What a requestor does for the block that it wants: it sends messages for the slices, and makes the block of those that
//! come home.
//!
//! An [`Assembly`] takes the full messages of one attempt of a repair, in any order, each slice once, and refuses every
//! other one with the reason ([`Accepted`]). Once every slice is there, [`Assembly::complete`] gives the block as an
//! [`Assembled`]. [`fetch`] gets the block of a plan over a [`Port`], the requestor's ends of the links, with a [`Crew`],
//! who turns the helpers and makes the plan anew where an attempt is given up.
//!
//! It stands on `ecp_slice` for messages, of which each is sound, on `ecp_link` for links, on `ecp_plan` for plans and
//! slices, on `ecp_history` for blocks, which are the same in every later table, and on `ecp_book`, by which the fronts of
//! a message and of an assembly begin one another. Of `ecp_coord` it has the words: what the plan of a pass is, and what
//! is found by asking whether it stands.
//!
//! The layer above may rely on this: whatever messages are given to an assembly, each slice that is there came from one
//! full message of its repair and has the bytes of the block, so what is complete is the block of the plan's stripe and
//! row in the table that the plan's front tells (`specs/Assemblies.antt`). A fetch ends with the block by the pass's plan,
//! with what the crew answered last, or for want of memory (`specs/Fetching.antt`), and [`laws`] has that the coordinator's
//! event is what a crew promises. Only `fetch` waits, and only `fetch` and `Assembly::new` take memory.
#![tactic(auto)]

mod accepted;
mod assembled;
mod assembly;
mod crew;
mod errand;
mod fetched;
mod fetching;
mod flight;
pub mod laws;
mod port;

pub use accepted::Accepted;
pub use assembled::Assembled;
pub use assembly::Assembly;
pub use crew::Crew;
pub use fetched::Fetched;
pub use fetching::fetch;
pub use port::Port;

#[cfg(test)]
mod tests;
