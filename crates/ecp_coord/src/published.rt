use ecp_book::Names;
use ecp_node::Receipt;

/// What became of a file that was to be stored.
#[derive(Drop)]
pub enum Published<N: Names> {
    /// It is stored: the number of its first stripe, and how many there are.
    Stored { first: u32, stripes: u32 },
    /// A file has the name. The receipts come back, all of them in their order.
    NameTaken(Vec<Receipt<N>>),
    /// A node of the reservation was lost since its point, first at this position of the history. The receipts come back,
    /// all of them in their order.
    Overtaken(u32, Vec<Receipt<N>>),
}
