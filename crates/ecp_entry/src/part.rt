/// Which entry of its call an entry is.
#[derive(Clone, Copy, Debug, PartialEq, Eq)]
pub enum Part {
    /// A part of a `cat` or a `rebuild`, from 0.
    Part(u32),
    /// The entry that ends the call.
    End,
}
