/// Where a row of a stripe stands. A row that is lost stands on the node where it was last live.
#[derive(Clone, Copy, Debug, PartialEq, Eq)]
pub struct Standing {
    pub node: u8,
    pub live: bool,
}
