//! Bounded links between helpers.
//!
//! A link has some senders and one taker, which may each be in a thread of its own. What each sender pushed is taken in
//! its order, once; between senders there is no order. A link is full or empty only where it was so at a look of that
//! very call. Once the taker has taken a sender in, it knows all that this sender pushed.
//!
//! No call but `link` takes memory, and none waits. `by_queue` is a plain form with the same order, to compare with; its
//! calls may wait. The crate stands on none of this repository, and `proofs/Senders.antt` has the lemmas that callers need.
#![tactic(auto)]

mod asking;
pub mod by_queue;
mod known;
mod laws;
mod limits;
mod making;
mod pushed;
mod ring;
mod sender;
mod taker;
mod taker_end;

pub use known::Known;
pub use laws::one_sender_counts_for_the_link;
pub use limits::{MOST_CAPACITY, MOST_PUSHES, MOST_SENDERS};
pub use making::link;
pub use pushed::Pushed;
pub use sender::Sender;
pub use std::alloc::AllocError as NoMemory;
pub use taker::Taker;

#[cfg(test)]
mod tests;
