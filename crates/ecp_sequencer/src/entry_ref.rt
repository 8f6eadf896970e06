use ecp_entry::{Deed, Line};

/// An entry whose bytes lie elsewhere. Its name is that of its deed.
#[derive(Clone, Copy)]
pub struct EntryRef<'a> {
    pub line: Line,
    /// What its call asks for; none for a `Drop`.
    pub deed: Option<Deed>,
    /// The bytes of a stored file, or of a block that was read; empty otherwise.
    pub bytes: &'a [u8],
}
