//! Reads what comes from outside: the words of a command (`words`), and the input of a run (`input`). A put may have its
//! bytes from a seed (`generated`).
//!
//! It stands on `ecp_shape` for the limits, on the store's blocks, on `toml` for the head of an input and on `hex`
//! for the bytes of a put. The layer above may rely on this: what is accepted is exactly what the format says, with
//! exactly the settings and calls that it spells, and all else is refused by its first fault. Want of memory is the
//! one answer that may come in place of these.
#![tactic(auto)]

mod generated;
mod input;
mod soak;
mod words;

pub use generated::generate;
pub use input::{
    Call, Form, Head, Input, Planned, Refusal, RefusalText, Session, Setting, Subject, one_reading,
    read_input,
};
pub use soak::soak_input;
pub use words::{Command, command};

#[cfg(test)]
mod tests;
