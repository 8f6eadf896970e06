use ecp_book::Entered;

/// What happened to a node, as its log has it.
#[derive(Clone, Copy, Debug)]
pub enum NodeItem<'a> {
    /// A block was kept. Its serial is the length that the log had before.
    Kept {
        stripe: u32,
        row: u8,
        serial: u64,
        bytes: &'a [u8],
    },
    /// The block with this serial was given up.
    Removed {
        serial: u64,
    },
    /// All blocks were given up, and the incarnation with this number began.
    Wiped {
        inc: u32,
    },
    /// A keep or a read of the store failed.
    Faulted,
    /// A failure was spent: it is the cause of one entry of the history.
    Spent,
}

impl<'a> Entered for NodeItem<'a> {
    ghost use Rattle.ecp_node.specs.Entries.{item_of};

    ghost item = { item_of };
}
