use std::collections::LinkedList;

/// What a taker knows of one sender. It exists in contracts alone: no value of it is made.
#[derive(Drop)]
pub struct Known<T> {
    /// What was taken of the sender, in order.
    pub taken: LinkedList<T>,
    /// Once the sender was taken in, all that it pushed.
    pub ended: Option<LinkedList<T>>,
}
