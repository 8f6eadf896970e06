//! The keeper of the history: the one place that adds to it, and passes that prove what each caller did.
//!
//! A [`Sequencer`] has the history's log, its journal, and one end of a tie to each hand. A [`Pass`] has the other end of
//! its hands' ties, and a front, a beginning of the history. A tie is two logs with one list, the hand's notes; each side
//! keeps one and hears the other. So where the two meet, they know the same of the hand, and each event can state on the
//! pass alone what it did: the front extends, and beyond the old front the history has of the hand just this event's
//! entries.
//!
//! It stands on `ecp_book` for logs, `ecp_entry` for entries and `ecp_history` for legal histories and the journal. It
//! knows no table, plan or node. The layer above may rely on `specs/Steps.antt` (an event, a call), on
//! `specs/Facts.antt` (what the notes of a hand tell) and on `specs/Closed.antt` (what is known at the end).
#![tactic(auto)]

mod branching;
mod calling;
mod close;
mod desk;
mod entering;
mod entry_ref;
mod gathering;
mod hand;
pub mod laws;
pub mod limits;
mod note;
mod noting;
mod pass;
mod room;
mod sequencer;
mod skipping;
mod start;
mod tie;

pub use ecp_store::NoMemory;
pub use entry_ref::EntryRef;
pub use pass::Pass;
pub use sequencer::Sequencer;

#[cfg(test)]
mod tests;
