//! Hands out the tasks of a rebuild to several workers, so that each is done once and each outcome comes back once.
//!
//! A `Mender` does one task by one hand. `run_tasks` gives each hand a thread of its own, hands the tasks out to them
//! by one queue, and answers the outcomes in the order of the tasks and the hands in their own order.
//!
//! It stands on `ecp_history` for `Task` and `Act`, and on `crossbeam_queue`. The layer above may rely on this: outcome
//! j answers task j, each hand is fit and the same hand as before, and the lists of what the hands have done have
//! together grown by just these tasks with their outcomes. A refusal comes before any task is begun, and gives the
//! hands back as they were.
#![tactic(auto)]

mod done;
mod ended;
mod finish;
mod gather;
mod job;
mod mender;
mod outcome;
mod rule;
mod run;
mod start;
mod view;
mod worker;

pub use done::Done;
pub use ecp_history::Task;
pub use mender::Mender;
pub use outcome::Outcome;
pub use run::run_tasks;
pub use std::alloc::AllocError as NoMemory;

#[cfg(test)]
mod tests;
