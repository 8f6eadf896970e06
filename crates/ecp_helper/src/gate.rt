ghost use Rattle.std.specs.Prelude.{◌≡◌, Bool, false, IsTrue};
ghost use Rattle.ecp_helper.specs.Gates.{Question};

/// Who lets messages on, or holds them up for a while.
///
/// A gate may be asked from several threads at once where its type is `Sync`.
pub trait Gate {
    /// Whether it lets every message on.
    ghost is_open: { Self → Bool };

    /// Which messages it may hold up, at which nodes.
    ghost shuts: { Self → Question → Bool };

    /// Whether the slice of this attempt of the repair may go on at the node.
    fn go(&self, node: u8, repair: u64, attempt: u32, slice: u32) -> bool
        ensures open { IsTrue (is_open self.now) → IsTrue result }
        ensures shut { result ≡ false → IsTrue (shuts self.now (record { node = node; repair = repair; attempt = attempt; slice = slice })) };
}

impl<G: Gate> Gate for &G {
    ghost is_open = { λ gate. G.is_open gate.now };

    ghost shuts = { λ gate. G.shuts gate.now };

    fn go(&self, node: u8, repair: u64, attempt: u32, slice: u32) -> bool {
        G::go(*self, node, repair, attempt, slice)
    }
}
