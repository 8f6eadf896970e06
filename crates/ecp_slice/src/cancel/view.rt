use std::collections::LinkedList;

/// What a seat knows of the word, whether it wrote it, and what its steps found there. No value of it is made.
pub(crate) struct View {
    pub(crate) known: u64,
    pub(crate) wrote: bool,
    pub(crate) looks: LinkedList<u64>,
}
