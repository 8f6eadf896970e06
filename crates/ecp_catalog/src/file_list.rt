ghost use Rattle.std.specs.Prelude.{◌≡◌, ◌+◌, ◌^◌, ◌<◌, ◌≤◌, [], length, map, IfOk, IfSome, IsSome, IsTrue, OnErr, OnOk, Some, is_some, option_copied, option_map, slice_get};
ghost use Rattle.ecp_shape.specs.Range.{IsInRange};
ghost use Rattle.ecp_catalog.specs.Catalogs.{AddsFile, CanStore, Replaces, Reserves, block_named, file_named};
ghost use Rattle.ecp_catalog.specs.Kept.{IsFile, stripes_stored};
ghost use Rattle.ecp_catalog.specs.LostBlocks.{lost_among, tasks_of};
ghost use Rattle.ecp_catalog.specs.Standing.{file_with, has_number, receipts_in, rows_in};
ghost use Rattle.ecp_catalog.specs.declared.limits.TheConstants.{END_OF_STRIPES};
ghost use Rattle.ecp_code.specs.Stripes.{stripe_count};
ghost use Rattle.ecp_history.specs.table.Tables.{block_count, file_block};

use crate::lost_blocks::put_stripes;
use crate::names::{NameMap, enter, lead};
use crate::node_row::NodeRow;
use crate::span::Span;
use crate::spans::{put_file, span_with};
use crate::stored_file::StoredFile;
use ecp_book::{Book, Names};
use ecp_entry::Name;
use ecp_history::{BlockName, File, Task};
use ecp_node::Receipt;
use ecp_shape::Shape;
use ecp_store::NoMemory;
use std::alloc::Global;
use std::collections::BTreeMap;
use std::marker::Model;

/// The files of a catalog. A name leads to its file by a map, and a stripe number by a search among the spans.
#[derive(Drop)]
pub(crate) struct FileList<N: Names> {
    shape: Shape,
    files: Vec<StoredFile<N>>,
    names: NameMap,
    spans: Vec<Span>,
    room: usize,
}

impl<N: Names> Model for FileList<N> {
    ghost use Rattle.std.specs.Prelude.{reverse, vec_len, vec_capacity};
    ghost use Rattle.std.specs.BTreeMap.{get, keys};
    ghost use Rattle.ecp_history.specs.table.Kept.{name_cmp};
    ghost use Rattle.ecp_catalog.specs.Catalogs.{FilesSeen};
    ghost use Rattle.ecp_catalog.specs.Kept.{AreFiles, HasRoom, joined};

    ghost Value = { FilesSeen };

    ghost view = { λ a. record { shape = a.shape; files = reverse a.files.items; names = keys a.names; room = a.room } };

    ghost invariant = { λ a. AreFiles a.shape a.files.items (λ q. joined (get name_cmp a.names q)) a.spans.items
        × HasRoom a.room (vec_len a.files) (vec_capacity a.files) (vec_len a.spans) (vec_capacity a.spans) };
}

impl<N: Names> FileList<N> {
    /// No files.
    pub(crate) fn new(alloc: Global, shape: Shape) -> Self
        requires { IsInRange shape }
        ensures { result ≡ record { shape = shape; files = []; names = []; room = 0 } }
    {
        FileList {
            shape,
            files: Vec::new(alloc),
            names: BTreeMap::new(alloc),
            spans: Vec::new(alloc),
            room: 0,
        }
    }

    /// The sizes that it was made with.
    pub(crate) fn shape(&self) -> Shape
        ensures shape { result ≡ self.now.shape }
        ensures range { IsInRange self.now.shape }
    {
        self.shape
    }

    /// The file with this name, if there is one, as it is stored.
    fn stored(&self, name: &Name) -> Option<&StoredFile<N>>
        ensures named { option_map (λ f. f.now.file) result ≡ file_named self.now.files name.now }
        ensures kept { IfSome result (λ f. IsFile self.now.shape f.now) }
    {
        match self.names.get(name)? {
            Some(at) => Some(&self.files[*at]),
            None => None,
        }
    }

    /// The file with this name, if there is one.
    pub(crate) fn file(&self, name: &Name) -> Option<File>
        ensures { result ≡ file_named self.now.files name.now }
    {
        let stored = self.stored(name)?;
        Some(stored.file())
    }

    /// The block of a stripe that a block of a file is, if there is a file with this name and it has so many.
    pub(crate) fn block_of(&self, name: &Name, index: u32) -> Option<BlockName>
        ensures { result ≡ block_named self.now.shape self.now.files name.now index }
    {
        let stored = self.stored(name)?;
        let file = stored.file();
        if index < block_count(self.shape, &file) {
            Some(file_block(self.shape, &file, index))
        } else {
            None
        }
    }

    /// Enters the name, and takes room for so many files. A refusal changes nothing.
    pub(crate) fn reserve(&mut self, name: Name, hands: usize) -> Result<(), NoMemory>
        ensures ok { OnOk result (Reserves self.old self.new name hands) }
        ensures err { OnErr result (self.new ≡ self.old) }
    {
        self.files.reserve(hands)?;
        self.spans.reserve(hands)?;
        enter(&mut self.names, name)?;
        self.room = self.room.max(hands);
        Ok(())
    }

    /// Stores a file with the receipts of its rows. Takes no memory.
    pub(crate) fn store(&mut self, file: File, rows: Vec<Receipt<N>>)
        requires { CanStore self.old (record { file = file; rows = rows.items }) }
        ensures { AddsFile self.old self.new (record { file = file; rows = rows.items }) }
    {
        let at = self.files.len();
        put_file(&mut self.spans, &file, at);
        lead(&mut self.names, file.name, at);
        self.files.push_reserved(StoredFile::new(file, rows));
        self.room -= 1;
    }

    /// The file that has the stripe with this number, if one does.
    fn stored_with(&self, stripe: u32) -> Option<&StoredFile<N>>
        ensures found { option_copied result ≡ file_with self.now.files stripe }
        ensures has { IfSome result (λ f. IsTrue (has_number stripe f.now)) }
        ensures kept { IfSome result (λ f. IsFile self.now.shape f.now) }
    {
        let span = span_with(&self.spans, stripe)?;
        Some(&self.files[span.file])
    }

    /// The receipts of the newest file.
    pub(crate) fn newest(&self) -> &[Receipt<N>]
        requires { IsSome (slice_get self.now.files 0) }
        ensures rows { option_map (λ f. f.rows) (slice_get self.now.files 0) ≡ Some result.now }
        ensures most { stripes_stored self.now.files ≤ END_OF_STRIPES }
    {
        match self.files.last() {
            Some(stored) => stored.all(),
            None => unreachable!(),
        }
    }

    /// Whether there is a stripe with this number.
    pub(crate) fn has_stripe(&self, stripe: u32) -> bool
        ensures { result ≡ is_some (file_with self.now.files stripe) }
    {
        self.stored_with(stripe).is_some()
    }

    /// The receipts of the rows of a stripe, if there is one with this number.
    pub(crate) fn rows_of(&self, stripe: u32) -> Option<&[Receipt<N>]>
        ensures rows { option_copied result ≡ option_map (rows_in self.now.shape.n stripe) (file_with self.now.files stripe) }
        ensures few { IfSome result (λ rows. length rows.now ≤ self.now.shape.n) }
    {
        let n = self.shape.n as usize;
        let stored = self.stored_with(stripe)?;
        let at = (stripe - stored.file().first) as usize * n;
        Some(stored.rows(at, n))
    }

    /// The tasks of a rebuild of a node: one for each block that is lost and stands on it.
    pub(crate) fn lost_on(
        &self,
        alloc: Global,
        nodes: &[NodeRow],
        node: u32,
    ) -> Result<Vec<Task>, NoMemory>
        ensures tasks { IfOk result (λ tasks. tasks.items ≡ tasks_of (lost_among (map (λ x. x.node) nodes.now) node self.now.shape.n self.now.files)) }
        ensures few { IfOk result (λ tasks. length tasks.items < 2 ^ 32) }
    {
        let mut tasks = Vec::new(alloc);
        for span in &self.spans {
            let file = &self.files[span.file];
            put_stripes(&mut tasks, nodes, node, file, self.shape, *span)?;
        }
        Ok(tasks)
    }

    /// Another receipt of a block. Takes no memory.
    pub(crate) fn receipt(&mut self, book: &Book<N>, stripe: u32, row: u8) -> Receipt<N>
        requires { IsSome (slice_get (receipts_in self.old.shape.n self.old.files stripe) row) }
        ensures receipt { slice_get (receipts_in self.old.shape.n self.old.files stripe) row ≡ Some result }
        ensures kept { self.new ≡ self.old }
    {
        match span_with(&self.spans, stripe) {
            Some(span) => {
                let n = self.shape.n as usize;
                let file = &mut self.files[span.file];
                let at = (stripe - file.file().first) as usize * n + usize::from(row);
                file.receipt(book, at)
            }
            None => unreachable!(),
        }
    }

    /// Another receipt of a block, in the place of the one that it had. Takes no memory.
    pub(crate) fn replace(&mut self, receipt: Receipt<N>)
        requires { IsSome (slice_get (receipts_in self.old.shape.n self.old.files receipt.stripe) receipt.row) }
        ensures files { Replaces self.old self.new receipt }
        ensures most { stripes_stored self.new.files ≤ END_OF_STRIPES }
    {
        let stripe = receipt.stripe();
        match span_with(&self.spans, stripe) {
            Some(span) => {
                let n = self.shape.n as usize;
                let file = &mut self.files[span.file];
                let at = (stripe - file.file().first) as usize * n + usize::from(receipt.row());
                file.replace(at, receipt);
            }
            None => unreachable!(),
        }
    }
}

/// How many blocks a file has, without those that only fill its last stripe.
pub(crate) fn block_count(shape: Shape, file: &File) -> u32
    requires { 1 ≤ shape.block }
    ensures { result ≡ block_count shape file.now }
{
    file.len.div_ceil(shape.block)
}

/// The block of a stripe that a block of a file is.
fn file_block(shape: Shape, file: &File, index: u32) -> BlockName
    requires range { IsInRange shape }
    requires stripes { file.now.stripes ≡ stripe_count shape.k shape.block file.now.len }
    requires below { file.now.first + file.now.stripes ≤ END_OF_STRIPES }
    requires there { index < block_count shape file.now }
    ensures { result ≡ file_block shape file.now index }
{
    BlockName {
        stripe: file.first + index / shape.k,
        row: (index % shape.k) as u8,
    }
}
