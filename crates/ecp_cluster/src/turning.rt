//! Turns of the helpers.
ghost use Rattle.std.specs.Prelude.{◌<◌};

use crate::service::Service;
use ecp_book::Names;
use ecp_helper::{Gate, Turn};
use ecp_store::Store;
use std::sync::Wait;

impl<N: Names, S: Store, G: Gate> Service<N, S, G> {
    /// One turn of the helper of this node, under its lock: moves one message one stop on, or says why it does not move.
    pub fn help_turn<R: Wait>(&self, rt: &R, node: u32) -> Turn<N>
        requires { node < N.shape.nodes }
    {
        let mut helper = self.helpers[node as usize].lock(rt);
        helper.turn(&self.book, &self.gate)
    }
}
