/// The name of a block in a store.
#[derive(Clone, Copy, Debug, PartialEq, Eq, Hash)]
pub struct Key {
    /// The stripe that the block belongs to.
    pub stripe: u32,
    /// Its row of that stripe.
    pub row: u8,
    /// The number that its node gave it. No two blocks of a node have one number.
    pub serial: u64,
}
