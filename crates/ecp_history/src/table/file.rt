use ecp_entry::Name;

/// A stored file: its name, how many bytes it has, the number of its first stripe, and how many stripes it
/// has, one after another.
#[derive(Clone, Copy, Debug, PartialEq, Eq)]
pub struct File {
    pub name: Name,
    pub len: u32,
    pub first: u32,
    pub stripes: u32,
}
