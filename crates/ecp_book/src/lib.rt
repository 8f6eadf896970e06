//! The book of logs: lists that only grow, and beginnings of them that outlive every lock.
//!
//! A book has a fixed number of logs. The keeper of a log has its whole list, and alone adds to it. A tag has a
//! beginning of that list, and may be copied, sent to other threads and met with the keeper or another tag. The lists
//! exist in the proofs alone; what threads share is one atomic word a log, its length.
//!
//! It stands on `atomic_table`, and on `ecp_shape` for what a name states. The layer above may rely on this: a tag's list is a prefix of its log's list,
//! which `meet` shows, and of two tags on one log the list of the one is a prefix of the other's, which `meet_tags`
//! shows. No call but `Blank::new` and `Book::open` takes memory, and none waits. `tests/till.rt` is a worked caller, and
//! `proofs/Prefixes.antt` has the lemmas on prefixes that callers need.
#![tactic(auto)]

mod blank;
mod book;
mod entered;
mod keeper;
mod names;
mod rule;
mod steps;
mod tag;
mod view;

pub use blank::{Blank, MAX_LOGS};
pub use book::Book;
pub use entered::Entered;
pub use keeper::Keeper;
pub use names::Names;
pub use std::alloc::AllocError as NoMemory;
pub use tag::Tag;

#[cfg(test)]
mod tests;
