/// A node: whether it is up, and how often it has come up again.
#[derive(Clone, Copy, Debug, PartialEq, Eq)]
pub struct Node {
    pub up: bool,
    pub inc: u32,
}
