/// A block: the number of its stripe, and its row.
#[derive(Clone, Copy, Debug, PartialEq, Eq)]
pub struct BlockName {
    pub stripe: u32,
    pub row: u8,
}
