//! The commands of the program, over any source of bytes and any two sinks.
//!
//! `top` reads the words of a command line and runs the command that they ask for: one read of the
//! input to its end, the work, and one answer, on the output or as one line on the diagnostic sink.
//! `mend` rebuilds one row of a stripe, `run` serves the calls of a script over nodes, each with one of the given
//! stores, and `check` only counts them.
//!
//! It stands on `ecp_command` for the words and the script, on `ecp_history` for the table, the journal and
//! the replies, on `ecp_code` for the rows of a stripe and on `ecp_store` for sources and sinks. The program
//! above may rely on this: by the status, what each sink got and why, for any source and any sinks.
#![tactic(auto)]

mod answer;
mod buffer;
mod commands;
mod journal_lines;
pub mod laws;
mod memory;
mod reading;
mod reply_lines;
mod run_lines;
mod serving;
mod stop;
mod writing;

pub use answer::{DONE, WRITE_FAULT, refuse};
pub use commands::checking::check;
pub use commands::mending::mend;
pub use commands::top::top;
pub use memory::stores_in_memory;
pub use stop::Stop;

#[cfg(test)]
mod tests;
