use std::collections::LinkedList;

/// What a seat at a ring may do and knows. No value of it is made.
pub struct View<T> {
    /// It has the sender's turn, or has taken the sender in. This is all that the sender pushed.
    pub(crate) sends: bool,
    pub(crate) pushed: LinkedList<T>,
    /// A free place is out with it.
    pub(crate) fills: bool,
    /// It has the taker's turn. This is all that was taken.
    pub(crate) takes: bool,
    pub(crate) taken: LinkedList<T>,
    /// The place of the last that was taken is out with it.
    pub(crate) empties: bool,
    /// The numbers that its looks at the other side's word found.
    pub(crate) looks: LinkedList<u64>,
}
