/// One part of a rebuild: its number, and the block that it restores.
#[derive(Clone, Copy, Debug, PartialEq, Eq)]
pub struct Task {
    pub part: u32,
    pub stripe: u32,
    pub row: u8,
}
