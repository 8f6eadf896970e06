use crate::known::Known;
use std::collections::LinkedList;

/// An item, and the number of its sender.
#[derive(Drop)]
pub struct Parcel<T> {
    pub(crate) from: u32,
    pub(crate) item: T,
}

/// What a pass may do and knows. No value of it is made.
pub struct View<T> {
    /// It may push, as the sender `from`, which pushed this.
    pub(crate) sends: bool,
    pub(crate) from: u32,
    pub(crate) pushed: LinkedList<T>,
    /// It may pop, and knows this of each sender.
    pub(crate) takes: bool,
    pub(crate) known: LinkedList<Known<T>>,
}
