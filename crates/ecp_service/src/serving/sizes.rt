//! The sizes of a service, by the head of its input.
ghost use Rattle.std.specs.Prelude.{◌≡◌};
ghost use Rattle.ecp_cluster.specs.Opening.{logs_for};
ghost use Rattle.ecp_service.specs.Sizing.{AreSizes, sizes_for};

use ecp_command::Head;
use ecp_shape::Shape;

/// The sizes of a service.
#[derive(Clone, Copy, Debug)]
pub(super) struct Sizes {
    pub shape: Shape,
    /// Bytes of a slice.
    pub slice: u32,
    /// Whether a plan has a lane for each of its helpers.
    pub cyclic: bool,
    /// Slices in flight of a call, at most.
    pub window: u32,
    /// Spare hands of each caller.
    pub hands: u32,
    pub callers: u32,
}

/// The sizes that a head asks for, with this many callers.
pub(super) fn sizes_of(head: &Head, callers: u32) -> Sizes
    ensures { result ≡ sizes_for head.now callers }
{
    Sizes {
        shape: Shape {
            n: head.n,
            k: head.k,
            nodes: head.nodes,
            block: head.block,
        },
        slice: head.slice,
        cyclic: head.cyclic,
        window: head.window,
        hands: head.workers.max(1),
        callers,
    }
}

impl Sizes {
    /// How many logs a service of these sizes has.
    pub(super) fn logs(&self) -> u32
        requires { AreSizes self.now (logs_for self.now.shape.nodes self.now.callers self.now.hands) }
        ensures { result ≡ logs_for self.now.shape.nodes self.now.callers self.now.hands }
    {
        1 + self.shape.nodes + 2 * self.callers * (1 + self.hands)
    }
}
