use crate::act::Act;
use crate::part::Part;

/// What the journal keeps of an entry.
#[derive(Clone, Copy, Debug, PartialEq, Eq)]
pub struct Line {
    /// A session, or [`MAX_SESSIONS`](ecp_shape::limits::MAX_SESSIONS) and the number of the node that gives a block up.
    pub caller: u8,
    /// The number of the call among those of its caller, from 0.
    pub call: u32,
    pub part: Part,
    /// The position whose table the entry speaks of.
    pub point: u32,
    pub act: Act,
}
