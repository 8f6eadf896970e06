//! `run` over nodes: the calls of the sessions are served by a service over the given stores, and written.
//!
//! `sizes.rt` has the sizes of a service by the head of the input, `on.rt` gives the service its stores and takes them back,
//! `naming.rt` picks its name, and `over.rt` opens and closes it. `caller.rt` has a caller with the calls of its session,
//! `seating.rt` makes one of each pass, `calls.rt` serves calls, `phases.rt` serves those of all callers phase by phase,
//! `raising.rt` raises their passes between two phases, and `workers.rt` has the threads that turn the helpers meanwhile.
//! `ran.rt` runs an input, and `lines.rt` writes what came of it.

mod caller;
mod calls;
mod fit;
mod lines;
mod naming;
mod on;
mod over;
mod phases;
mod raising;
mod ran;
mod replies;
mod seating;
mod sizes;
mod stores;
mod workers;

pub(crate) use lines::write_text;
pub(crate) use ran::run_input;
