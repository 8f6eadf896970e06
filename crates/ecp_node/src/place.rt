/// Where a block belongs: its stripe, and its row of it.
#[derive(Clone, Copy, Debug)]
pub struct Place {
    pub stripe: u32,
    pub row: u8,
}
