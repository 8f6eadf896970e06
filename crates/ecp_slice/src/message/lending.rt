//! Calls of a message's front, receipts and cancel handle. Each leaves all else of the message as it is.

ghost use Rattle.std.specs.Prelude.{◌≡◌, ◌<◌, ◌≤◌, length, slice_index, IsTrue, OnOk};
ghost use Rattle.ecp_book.specs.Logs.{history_log};
ghost use Rattle.ecp_node.specs.Nodes.{after_read, ReadAnswers};
ghost use Rattle.ecp_node.specs.Receipts.{named};
ghost use Rattle.ecp_slice.specs.Cancels.{Finds, after_set, after_read as after_look};
ghost use Rattle.ecp_slice.specs.Messages.{helpers, next_hop, HasNext, receipt_at, next_receipt, slice_of};

use super::SliceMsg;
use crate::reasons::{CALL_ENDED, HELPER_LOST};
use ecp_book::{Book, Names, Tag};
use ecp_node::{Node, NodeRead, Receipt};
use ecp_store::Store;

impl<N: Names> SliceMsg<N> {
    /// The history when its attempt was planned: a copy of its front. Takes no memory.
    pub fn front(&mut self, book: &Book<N>) -> Tag<N>
        ensures front { result ≡ record { log = history_log; items = self.old.front } }
        ensures kept { self.new ≡ self.old }
    {
        book.copy(&mut self.parts.front)
    }

    /// The receipt of a helper: a copy, which names the same bytes. Takes no memory.
    pub fn receipt(&mut self, book: &Book<N>, hop: u8) -> Receipt<N>
        requires { hop < helpers self.old }
        ensures receipt { result ≡ receipt_at self.old hop }
        ensures kept { self.new ≡ self.old }
    {
        let receipt = &mut self.parts.route[usize::from(hop)];
        receipt.copy(book)
    }

    /// Fills `buf` with the slice of the helper that is to be added next, as its node reads it by the helper's receipt.
    /// Takes no memory.
    ///
    /// `node` is the one that [`next`](SliceMsg::next) names, and `buf` has as many bytes as the slice. The answers are
    /// those of [`Node::read_slice`]; after an error `buf` may hold any bytes. Where payloads are told, `Ok` leaves in
    /// `buf` just what [`add`](SliceMsg::add) asks for. The message stays as it is.
    pub fn read_from<S: Store>(
        &mut self,
        book: &Book<N>,
        node: &mut Node<N, S>,
        buf: &mut [u8],
    ) -> Result<(), NodeRead>
        requires more { HasNext self.old }
        requires node { node.old.number ≡ slice_index self.old.nodes (next_hop self.old) }
        requires len { length buf.old ≡ self.old.len }
        ensures answer { ReadAnswers result node.old (next_receipt self.old).serial node.new.store_faults }
        ensures bytes { IsTrue S.tells → OnOk result (buf.new ≡ slice_of self.old (next_receipt self.old).bytes) }
        ensures told { IsTrue N.told → OnOk result (buf.new ≡ slice_of self.old (next_receipt self.old).bytes) }
        ensures node { node.new ≡ after_read result node.old (named (next_receipt self.old)) self.old.len node.new.store_faults }
        ensures kept { self.new ≡ self.old }
    {
        let off = self.parts.span.off;
        let hop = usize::from(self.next_hop());
        let receipt = &mut self.parts.route[hop];
        node.read_slice(book, receipt, off, buf)
    }

    /// The cancel word, by one load: 0, or the reason that it has for good. Its handle then knows it.
    pub fn read_cancel(&mut self) -> u64
        ensures read { self.new ≡ record self.old { cancel = after_look self.old.cancel result } }
        ensures found { Finds self.old.cancel.known result }
    {
        self.parts.cancel.read()
    }

    /// Changes the cancel word to the reason where it is 0, by one exchange, and answers the word that it found. Its
    /// handle then knows the reason that the word has.
    pub fn set_cancel(&mut self, reason: u64) -> u64
        requires least { HELPER_LOST ≤ reason }
        requires most { reason ≤ CALL_ENDED }
        ensures set { self.new ≡ record self.old { cancel = after_set self.old.cancel reason result } }
        ensures found { Finds self.old.cancel.known result }
    {
        self.parts.cancel.set(reason)
    }

    /// What its handle knows of the cancel word, without a step: 0, or the reason that the word has for good.
    pub fn knows(&self) -> u64
        ensures known { result ≡ self.now.cancel.known }
        ensures most { result ≤ CALL_ENDED }
    {
        self.parts.cancel.known()
    }

    /// Whether a [`set_cancel`](SliceMsg::set_cancel) of this very message changed the cancel word, without a step.
    pub fn wrote(&self) -> bool
        ensures { result ≡ self.now.cancel.wrote }
    {
        self.parts.cancel.wrote()
    }
}
