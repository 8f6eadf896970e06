/// The two parts of an input.
#[derive(Clone, Copy, Debug)]
pub(crate) struct Parts<'a> {
    pub head: &'a [u8],
    pub script: &'a [u8],
    /// The number of the script's first line.
    pub first: u32,
}
