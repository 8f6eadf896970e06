use ecp_book::Names;
use ecp_slice::{Next, SliceMsg};

/// What a turn of a helper did.
#[derive(Drop)]
pub enum Turn<N: Names> {
    /// A message went on to its next stop.
    Passed,
    /// The link to this stop is full. The message stays held.
    Held(Next),
    /// The gate did not let the message on. It stays held.
    Waited,
    /// The message is not wanted any more: its handle knows the reason.
    Dropped(SliceMsg<N>),
    /// The message does not go to this node, or the stop after this one has no sender here.
    Astray(SliceMsg<N>),
    /// The block that the message wants was given up. This is the node's incarnation.
    Lost(SliceMsg<N>, u32),
    /// The store failed to read the slice.
    Fault(SliceMsg<N>),
    /// There was nothing to do.
    Idle,
}
