ghost use Rattle.std.specs.Prelude.{◌≡◌, ◌+◌, ◌<◌, ◌≤◌, drop, length, slice_get, slice_set, take};

use ecp_book::{Book, Names};
use ecp_history::File;
use ecp_node::Receipt;
use std::marker::Model;

/// A stored file, and the receipts of its rows: receipt number i * n + r is that of row r of its stripe i.
#[derive(Drop)]
pub(crate) struct StoredFile<N: Names> {
    file: File,
    rows: Vec<Receipt<N>>,
}

impl<N: Names> Model for StoredFile<N> {
    ghost use Rattle.ecp_catalog.specs.Standing.{FileSeen};

    ghost Value = { FileSeen };

    ghost view = { λ f. record { file = f.file; rows = f.rows.items } };
}

impl<N: Names> StoredFile<N> {
    pub(crate) fn new(file: File, rows: Vec<Receipt<N>>) -> Self
        ensures { result ≡ record { file = file; rows = rows.items } }
    {
        StoredFile { file, rows }
    }

    pub(crate) fn file(&self) -> File
        ensures { result ≡ self.now.file }
    {
        self.file
    }

    /// All receipts.
    pub(crate) fn all(&self) -> &[Receipt<N>]
        ensures { result.now ≡ self.now.rows }
    {
        &self.rows
    }

    /// So many receipts, from this number on.
    pub(crate) fn rows(&self, at: usize, count: usize) -> &[Receipt<N>]
        requires { at + count ≤ length self.now.rows }
        ensures { result.now ≡ take count (drop at self.now.rows) }
    {
        &self.rows[at..at + count]
    }

    /// Another receipt of the block with this number.
    pub(crate) fn receipt(&mut self, book: &Book<N>, at: usize) -> Receipt<N>
        requires { at < length self.old.rows }
        ensures receipt { slice_get self.old.rows at ≡ Some result }
        ensures kept { self.new ≡ self.old }
    {
        self.rows[at].copy(book)
    }

    /// Another receipt for the block with this number, in the place of the one that it had.
    pub(crate) fn replace(&mut self, at: usize, receipt: Receipt<N>)
        requires { at < length self.old.rows }
        ensures { self.new ≡ record { file = self.old.file; rows = slice_set self.old.rows at receipt } }
    {
        self.rows[at] = receipt;
    }
}
