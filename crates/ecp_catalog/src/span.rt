/// The numbers of the stripes of one file, from `first` up to `end`, and the index of the file.
#[derive(Clone, Copy, Debug, PartialEq, Eq)]
pub(crate) struct Span {
    pub(crate) first: u32,
    pub(crate) end: u32,
    pub(crate) file: usize,
}
