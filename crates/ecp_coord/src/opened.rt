/// What is known of a file that is read whole, or that there is none.
#[derive(Clone, Copy, Debug, PartialEq, Eq)]
pub enum Opened {
    /// The file's bytes, its blocks, and the number of its first stripe.
    Opened { len: u32, count: u32, first: u32 },
    /// No file has the name.
    NoSuchFile,
}
