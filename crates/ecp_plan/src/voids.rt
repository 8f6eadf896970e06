/// The positions of the history at which attempts of a plan or of a put came to nothing, at most 16.
#[derive(Clone, Copy, Debug, PartialEq, Eq)]
pub struct Voids {
    /// How many positions there are.
    pub len: u8,
    /// The positions, in rising order, and 0 past them.
    pub at: [u32; 16],
}
