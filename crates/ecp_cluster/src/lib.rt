//! The service over nodes: callers in threads of their own, one coordinator, and a helper for each node.
//!
//! A [`Service`] has the coordinator behind a lock, each node's helper behind one, and a port for each caller behind one.
//! Threads share it by reference, each with a [`Pass`] of its own. What lies behind a lock is known by its type alone, so no
//! clause says what a call did to the coordinator: each call says what it did to its pass (`specs/Answered.antt`).
//!
//! A thread takes the lock of a node before that of the coordinator, and never two of nodes. A call that takes a lock may
//! wait for it.
//!
//! `opening.rt` makes a service, `calls/` has its calls, `raising.rt` has passes learn of each other, `turning.rt` has the
//! turns of the helpers, and `closing.rt` its end.
//!
//! It stands on `ecp_coord` for events, on `ecp_node` and `ecp_helper` for what is done at a node, on `ecp_link` for the
//! links between them, and on `ecp_requestor` for fetches, for which it is the crew (`crew.rt`). The layer above may rely on this: each call has its one `End` entry with the act that it answers,
//! beyond the front that its pass had, in a history that is legal; and at the end all passes are of one such history
//! (`specs/Ended.antt`), in which each entry that tells of a failure of a store has a failure of its own there.
#![tactic(auto)]

mod answer;
mod calls;
mod closed;
mod closing;
mod crew;
mod file_sum;
mod opening;
mod raising;
mod room;
mod service;
mod turning;

pub use answer::Answer;
pub use closed::Closed;
pub use ecp_helper::Turn;
pub use ecp_sequencer::Pass;
pub use ecp_store::NoMemory;
pub use service::Service;

#[cfg(test)]
mod tests;
