use crate::deed::Deed;
use crate::line::Line;
use crate::text::Text;
use ecp_store::Block;

/// One entry of the history: its line, and what the line is about.
#[derive(Debug, Drop)]
pub struct Entry {
    pub line: Line,
    /// What its call asks for; none for a `Drop`.
    pub deed: Option<Deed>,
    /// The name of the file in question; empty where the deed has none.
    pub name: Text,
    /// The bytes of a stored file, or of a block that was read; empty otherwise.
    pub bytes: Block,
}
