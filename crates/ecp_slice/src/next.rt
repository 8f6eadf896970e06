/// Where a message goes next.
#[derive(Clone, Copy, Debug, PartialEq, Eq)]
pub enum Next {
    /// To the helper on this node.
    Node(u8),
    /// Home, to the requestor's port with this number.
    Home(u8),
}
