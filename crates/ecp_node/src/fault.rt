/// A keep or a read of the store that failed, of this stripe and row.
#[derive(Clone, Copy, Debug, PartialEq, Eq)]
pub struct Fault {
    pub stripe: u32,
    pub row: u8,
    /// Whether it was a keep. Else it was a read.
    pub wrote: bool,
}
