//! Helpers: each turns the slices that come to its node into partial sums, and sends them on.
//!
//! A [`Helper`] has a node, the taker of the node's link, and senders to the nodes and ports that messages go to. One
//! [`Helper::turn`] moves one message one stop on: it adds the node's slice to it, or says by its answer ([`Turn`]) why
//! not. A message that cannot go on stays held, in order; one that has no place here is handed back. A [`Gate`] may hold
//! messages up for a while; [`OpenGate`] holds up none.
//!
//! `helper/taking.rt` has where the message of a turn comes from, `helper/serving.rt` what becomes of it, `adding.rt` the
//! work on it, and `senders.rt` and `room.rt` the links and the memory of a helper.
//!
//! The layer stands on `ecp_slice` for messages, on `ecp_link` for links, on `ecp_node` for reads, and on `ecp_plan` for
//! the order of a slice's stops. The layer above may rely on what each answer says (`specs/Turns.antt`): no message is
//! lost or made, what is added is the slice that the message's receipt names, read in that turn, and every message that a
//! helper holds is sound. No call waits, and only `new` takes memory.
#![tactic(auto)]

mod adding;
mod gate;
mod helper;
mod open_gate;
mod room;
mod senders;
mod turn;

pub use gate::Gate;
pub use helper::Helper;
pub use open_gate::OpenGate;
pub use turn::Turn;

#[cfg(test)]
mod tests;
