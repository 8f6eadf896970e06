use std::collections::LinkedList;

/// What the holder of a seat may do.
pub(crate) enum Role {
    /// Makes the keepers of its log and of all later ones, which are empty.
    Opener,
    /// Has the log's whole list, and adds to it.
    Keeper,
    /// Has a prefix of the log's list.
    Tag,
    /// Has the log's whole list, which grows no more.
    Ended,
    /// Says nothing.
    Spent,
}

/// What a seat knows of a log, and in a meeting the list of the other side. No value of it is made.
pub(crate) struct View {
    pub(crate) role: Role,
    pub(crate) log: u64,
    pub(crate) items: LinkedList<LinkedList<u64>>,
    pub(crate) met: LinkedList<LinkedList<u64>>,
}
