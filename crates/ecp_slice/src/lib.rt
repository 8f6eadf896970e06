//! Slices on their way through the helpers of a repair: what each carries, and how it is given up.
//!
//! A [`SliceMsg`] is the message of one slice. It names the helpers of its plan and sums their slices, one after another:
//! [`SliceMsg::next`] says where it goes, [`SliceMsg::read_from`] reads the next helper's slice, and [`SliceMsg::add`]
//! adds it. Every message is sound (`specs/Sound.antt`): its payload is the sum over just the helpers that it says were
//! added, of the slices that the receipts of their blocks name.
//!
//! A [`Cancel`] is a handle on a cancel word. The word is 0 until one `set` changes it, and then has that reason for
//! good; whoever has a handle on it learns the reason with the next step, and gives the messages of that attempt up.
//! The reasons are constants: [`HELPER_LOST`], [`STORE_FAILED`], [`ATTEMPT_REPLACED`] and [`CALL_ENDED`].
//!
//! The layer stands on `ecp_plan` for plans and for the order in which a slice visits its helpers, on `ecp_kernel` for
//! sums, on `ecp_node` and `ecp_book` for receipts and fronts, on `ecp_history` for what a sound plan is, and on
//! `atomic_table`, which has the cancel word. The layer above may rely on this: nobody holds an unsound message, whatever
//! link, list or thread it comes from, and a full one has its slice of the block ([`laws`]); a handle that knows a reason
//! finds that reason for good, `set` and `read` answer the word as their one step found it, and `wrote` says whether a
//! `set` of that very handle changed the word. No call waits, and of a message's calls only `start` takes memory.
#![tactic(auto)]

mod cancel;
mod hops;
pub mod laws;
mod message;
mod next;
mod reasons;
mod span;
mod summing;

pub use cancel::Cancel;
pub use message::SliceMsg;
pub use next::Next;
pub use reasons::{ATTEMPT_REPLACED, CALL_ENDED, HELPER_LOST, STORE_FAILED};

#[cfg(test)]
mod tests;
