//! What a history is: the plain table that its entries make, and which histories are legal.
//!
//! It stands on `ecp_code` for the rows of a stripe and on `ecp_entry` for entries, whose types and texts it hands on.
//! Its definitions (`specs/`) are what the layers above cite and never restate: the plain table and the table after an
//! entry (`specs/table`), which blocks are recoverable, which entry may follow which, legal histories, the table that a
//! log tells, sound plans, and what is counted of a history: losses during a call, entries of nodes, faults, stripe
//! numbers. `laws` has what is proved of them for all histories: legality looks at no later entry, a stripe's data stay,
//! a lost node's blocks stay lost, no call looks before its caller's past, a log tells one history and one entry more
//! with each item, and a sound plan stays sound as its front grows.
//!
//! The code keeps the plain table, exactly by these definitions (`table`), and the journal's lines. Room for the journal
//! is taken by `Journal::reserve` alone.
#![tactic(auto)]

mod journal;
pub mod laws;
mod table;
mod task;

pub use ecp_entry::{
    Act, Deed, Entry, Line, Name, Part, Reply, TEXT_ROOM, Text, line_text, put_line, put_reply,
    reply_text, reply_to,
};
pub use ecp_shape::Shape;
pub use journal::Journal;
pub use table::{BlockName, File, Node, Standing, Table};
pub use task::Task;

#[cfg(test)]
mod table_tests;
#[cfg(test)]
mod tests;
