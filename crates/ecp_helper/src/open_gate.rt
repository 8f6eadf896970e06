ghost use Rattle.std.specs.Prelude.{true, false};

use crate::gate::Gate;

/// The gate that lets every message on.
#[derive(Clone, Copy, Debug)]
pub struct OpenGate;

impl Gate for OpenGate {
    ghost is_open = { λ _. true };

    ghost shuts = { λ _ _. false };

    fn go(&self, _node: u8, _repair: u64, _attempt: u32, _slice: u32) -> bool {
        true
    }
}
