//! The commands, each over its three ends: an input, an output and a diagnostic sink.

pub(crate) mod checking;
pub(crate) mod mending;
pub(crate) mod running;
pub(crate) mod top;
