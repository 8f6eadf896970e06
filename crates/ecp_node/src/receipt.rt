ghost use Rattle.std.specs.Prelude.{◌≡◌, ◌<◌, [], ◌∷◌, ◌++◌, take};
ghost use Rattle.ecp_node.specs.Items.{kept_item};
ghost use Rattle.ecp_node.specs.Held.{IsKept, wipes, places};
ghost use Rattle.ecp_node.specs.Receipts.{named, next_kept, receipt_for};
ghost use Rattle.ecp_node.specs.Shelves.{key_of};

use crate::limits::LOG_END;
use crate::node_log::NodeLog;
use ecp_book::{Book, Names, Tag};
use ecp_store::Key;
use std::marker::Model;

/// A name of a block that a node kept, which stands for the same bytes for ever.
///
/// It is a tag on the node's log whose list has the block's `Kept`. It may be copied, and may go to another thread.
#[derive(Drop)]
pub struct Receipt<N: Names> {
    tag: Tag<N>,
    stripe: u32,
    row: u8,
    serial: u64,
    inc: u32,
    node: u8,
}

impl<N: Names> Model for Receipt<N> {
    ghost use Rattle.ecp_node.specs.Receipts.{ReceiptState, IsReceipt, receipt_seen};

    ghost Value = { ReceiptState };

    ghost view = { λ r. receipt_seen r.stripe r.row r.serial r.inc r.node r.tag.items };

    ghost invariant = { λ r. IsReceipt r.tag.log (receipt_seen r.stripe r.row r.serial r.inc r.node r.tag.items) };
}

impl<N: Names> Receipt<N> {
    /// Enters into the log that its node keeps this block, and gives the receipt of it.
    pub(crate) fn enter(
        log: &mut NodeLog<N>,
        book: &Book<N>,
        stripe: u32,
        row: u8,
        bytes: &[u8],
    ) -> Self
        requires { places log.old.items < LOG_END }
        ensures receipt { result ≡ receipt_for log.old.node log.old.items (next_kept log.old.items stripe row bytes.now) }
        ensures log { log.new ≡ record log.old { items = log.old.items ++ kept_item (next_kept log.old.items stripe row bytes.now) ∷ [] } }
    {
        let inc = log.wiped();
        let node = log.node();
        let serial = log.keep(book, stripe, row, bytes);
        let tag = log.tag(book);
        Receipt {
            tag,
            stripe,
            row,
            serial,
            inc,
            node,
        }
    }

    /// The stripe that the block belongs to.
    pub fn stripe(&self) -> u32
        ensures { result ≡ self.now.stripe }
    {
        self.stripe
    }

    /// The block's row of its stripe.
    pub fn row(&self) -> u8
        ensures { result ≡ self.now.row }
    {
        self.row
    }

    /// The block's number: the length that the node's log had when the block was kept.
    pub fn serial(&self) -> u64
        ensures serial { result ≡ self.now.serial }
        ensures kept { IsKept self.now.items (named self.now) }
    {
        self.serial
    }

    /// The incarnation of the node that kept the block.
    pub fn inc(&self) -> u32
        ensures inc { result ≡ self.now.inc }
        ensures during { result ≡ wipes (take self.now.serial self.now.items) }
    {
        self.inc
    }

    /// The node that kept the block.
    pub fn node(&self) -> u8
        ensures { result ≡ self.now.node }
    {
        self.node
    }

    /// Another receipt of the same block. Takes no memory.
    pub fn copy(&mut self, book: &Book<N>) -> Receipt<N>
        ensures copy { result ≡ self.old }
        ensures kept { self.new ≡ self.old }
    {
        Receipt {
            tag: book.copy(&mut self.tag),
            stripe: self.stripe,
            row: self.row,
            serial: self.serial,
            inc: self.inc,
            node: self.node,
        }
    }

    /// The block's key in the store of its node.
    pub(crate) fn key(&self) -> Key
        ensures { result ≡ key_of (named self.now) }
    {
        Key {
            stripe: self.stripe,
            row: self.row,
            serial: self.serial,
        }
    }

    /// Shows that the log of its node has the block's `Kept`.
    #[tactic(auto, using(crate::proofs::Growth::kept_in_whole))]
    pub(crate) fn meet(&mut self, book: &Book<N>, log: &mut NodeLog<N>)
        requires { self.old.node ≡ log.old.node }
        ensures there { IsKept log.old.items (named self.old) }
        ensures kept { self.new ≡ self.old }
        ensures log { log.new ≡ log.old }
    {
        log.meet(book, &mut self.tag);
    }
}
