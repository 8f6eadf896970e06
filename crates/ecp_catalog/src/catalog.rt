ghost use Rattle.std.specs.Prelude.{◌≡◌, ◌+◌, ◌^◌, ◌<◌, ◌≤◌, All, IfOk, IsSome, OnErr, OnOk, [], is_none, is_some, length, replicate, slice_get, true};
ghost use Rattle.ecp_shape.specs.Range.{IsInRange};
ghost use Rattle.ecp_history.specs.Named.{block_at};
ghost use Rattle.ecp_history.specs.table.Tables.{block_count, file_of, inc_of, is_up, up_count, up_mask};
ghost use Rattle.ecp_catalog.specs.Catalogs.{CanStore, Reserves, Restores, Stores, changed_at, empty, files_of, first_loss, first_loss_among, is_live_in, is_lost_in, joined_node, live_of, losses_of, lost_at, plain, receipts_of, spare_of, standings_of, with_spare};
ghost use Rattle.ecp_catalog.specs.LostBlocks.{lost_in, tasks_of};
ghost use Rattle.ecp_catalog.specs.Standing.{file_with, live_among, standing};
ghost use Rattle.ecp_catalog.specs.Kept.{rows_stored};

use crate::file_list::{FileList, block_count};
use crate::live_rows::LiveRows;
use crate::node_list::{
    count_rows, first_among, first_from, live_rows_among, nodes_up, stands, up_among,
};
use crate::node_row::NodeRow;
use ecp_book::{Book, Names};
use ecp_entry::Name;
use ecp_history::{BlockName, File, Task};
use ecp_node::Receipt;
use ecp_shape::Shape;
use ecp_store::NoMemory;
use std::alloc::Global;
use std::marker::Model;

/// What is kept of a plain table by one that holds no byte of it: its files with the receipts of their rows, and its
/// nodes.
///
/// A question costs at most what a stripe has rows or a service has nodes, beside one search by a name or by a number.
/// Questions, [`lose`](Catalog::lose), [`join`](Catalog::join), [`restore`](Catalog::restore) and
/// [`store`](Catalog::store) take no memory: [`reserve`](Catalog::reserve) and
/// [`reserve_loss`](Catalog::reserve_loss) take it before. [`lost_on`](Catalog::lost_on) alone looks at all rows, and
/// takes memory for its answer.
#[derive(Drop)]
pub struct Catalog<N: Names> {
    files: FileList<N>,
    nodes: Vec<NodeRow>,
}

impl<N: Names> Model for Catalog<N> {
    ghost use Rattle.ecp_catalog.specs.Catalogs.{CatalogState};
    ghost use Rattle.ecp_catalog.specs.Kept.{AreNodes};

    ghost Value = { CatalogState };

    ghost view = { λ a. record { shape = a.files.shape; files = a.files.files; nodes = a.nodes.items; names = a.files.names; room = a.files.room } };

    ghost invariant = { λ a. AreNodes a.files.shape a.files.files a.nodes.items };
}

impl<N: Names> Catalog<N> {
    /// No file, and all nodes up.
    pub fn new(alloc: Global, shape: Shape) -> Result<Self, NoMemory>
        requires { IsInRange shape }
        ensures { IfOk result (λ c. c ≡ empty shape) }
    {
        let nodes = nodes_up(alloc, shape.nodes)?;
        Ok(Catalog {
            files: FileList::new(alloc, shape),
            nodes,
        })
    }

    /// Enters the name of a file, and takes room for so many files, so that storing one takes no memory. A refusal
    /// changes nothing.
    ///
    /// `hands` is how many there are that may each have one file to store: room for them is room for all.
    pub fn reserve(&mut self, name: &Name, hands: u32) -> Result<(), NoMemory>
        ensures ok { OnOk result (Reserves (files_of self.old) (files_of self.new) name.now hands) }
        ensures nodes { self.new.nodes ≡ self.old.nodes }
        ensures err { OnErr result (self.new ≡ self.old) }
    {
        self.files.reserve(*name, hands as usize)
    }

    /// Stores a file with the receipts of its rows: receipt i * n + r is that of row r of its stripe i. Takes no memory.
    pub fn store(&mut self, file: File, rows: Vec<Receipt<N>>)
        requires { CanStore (files_of self.old) (record { file = file; rows = rows.items }) }
        ensures { Stores self.old self.new (record { file = file; rows = rows.items }) }
    {
        self.files.store(file, rows);
        count_rows(&mut self.nodes, self.files.newest());
    }

    /// Takes room for the positions of so many losses of a node. A refusal changes nothing.
    ///
    /// `hands` is how many there are that may each lose the node once.
    pub fn reserve_loss(&mut self, node: u32, hands: u32) -> Result<(), NoMemory>
        requires { node < self.old.shape.nodes }
        ensures ok { OnOk result (self.new ≡ record self.old { nodes = changed_at (with_spare hands) node self.old.nodes }) }
        ensures room { OnOk result (hands ≤ spare_of self.new.nodes node) }
        ensures err { OnErr result (self.new ≡ self.old) }
    {
        self.nodes[node as usize].reserve(hands as usize)
    }

    /// A node is down, and no block on it is live. `position` is that of the loss in the history. Takes no memory.
    pub fn lose(&mut self, node: u32, position: u32)
        requires there { node < self.old.shape.nodes }
        requires room { 1 ≤ spare_of self.old.nodes node }
        requires behind { All (λ p. p < position) (losses_of self.old.nodes node) }
        ensures { self.new ≡ record self.old { nodes = changed_at (lost_at position) node self.old.nodes } }
    {
        self.nodes[node as usize].lose(position);
    }

    /// A node that is down comes up, empty, in its next incarnation. Takes no memory.
    pub fn join(&mut self, node: u32)
        requires there { node < self.old.shape.nodes }
        requires next { inc_of (plain self.old) node + 1 < 2 ^ 32 }
        ensures { self.new ≡ record self.old { nodes = changed_at joined_node node self.old.nodes } }
    {
        self.nodes[node as usize].join();
    }

    /// A lost row of a stripe is live by this receipt, which takes the place of the one that it had and is let go. Takes
    /// no memory.
    pub fn restore(&mut self, receipt: Receipt<N>)
        requires lost { is_lost_in self.old receipt.stripe receipt.row ≡ true }
        requires up { (standing (plain self.old).nodes receipt).live ≡ true }
        requires few { live_of self.old.nodes receipt.node < rows_stored self.old.shape self.old.files }
        ensures { Restores self.old self.new receipt }
    {
        let node = usize::from(receipt.node());
        self.files.replace(receipt);
        self.nodes[node].count();
    }
}

impl<N: Names> Catalog<N> {
    /// The file with this name, if there is one.
    pub fn file(&self, name: &Name) -> Option<File>
        ensures { result ≡ file_of (plain self.now) name.now }
    {
        self.files.file(name)
    }

    /// Whether no file has this name.
    pub fn is_free(&self, name: &Name) -> bool
        ensures { result ≡ is_none (file_of (plain self.now) name.now) }
    {
        self.file(name).is_none()
    }

    /// How many blocks a file has, without those that only fill its last stripe.
    pub fn block_count(&self, file: &File) -> u32
        ensures { result ≡ block_count self.now.shape file.now }
    {
        block_count(self.files.shape(), file)
    }

    /// The block of a stripe that a block of a file is, if there is a file with this name and it has so many.
    pub fn block_of(&self, name: &Name, index: u32) -> Option<BlockName>
        ensures { result ≡ block_at self.now.shape (plain self.now) name.now index }
    {
        self.files.block_of(name, index)
    }

    /// Whether there is a stripe with this number.
    pub fn has_stripe(&self, stripe: u32) -> bool
        ensures { result ≡ is_some (file_with self.now.files stripe) }
    {
        self.files.has_stripe(stripe)
    }

    /// Whether a block is live.
    pub fn is_live(&self, stripe: u32, row: u8) -> bool
        ensures { result ≡ is_live_in self.now stripe row }
    {
        let Some(rows) = self.files.rows_of(stripe) else {
            return false;
        };
        match rows.get(usize::from(row)) {
            Some(receipt) => stands(&self.nodes, receipt),
            None => false,
        }
    }

    /// Whether a block is there and lost.
    pub fn is_lost(&self, stripe: u32, row: u8) -> bool
        ensures { result ≡ is_lost_in self.now stripe row }
    {
        let Some(rows) = self.files.rows_of(stripe) else {
            return false;
        };
        match rows.get(usize::from(row)) {
            Some(receipt) => !stands(&self.nodes, receipt),
            None => false,
        }
    }

    /// The live rows of a stripe, in rising order, each with its node. There are none where there is no such stripe.
    pub fn live_rows(&self, stripe: u32) -> LiveRows
        ensures { result ≡ live_among (standings_of self.now stripe) }
    {
        match self.files.rows_of(stripe) {
            Some(rows) => live_rows_among(&self.nodes, rows),
            None => LiveRows::none(),
        }
    }

    /// The tasks of a rebuild of a node: one for each block that is lost and stands on it, in rising order of the stripes
    /// and in one stripe of the rows. Their parts are numbered from 1.
    ///
    /// It looks once at each row of each stripe. It takes memory for the tasks, and nothing but the want of it is refused.
    pub fn lost_on(&self, alloc: Global, node: u32) -> Result<Vec<Task>, NoMemory>
        ensures tasks { IfOk result (λ tasks. tasks.items ≡ tasks_of (lost_in self.now node)) }
        ensures few { IfOk result (λ tasks. length tasks.items < 2 ^ 32) }
    {
        self.files.lost_on(alloc, &self.nodes, node)
    }

    /// A receipt of a block. Takes no memory.
    pub fn receipt(&mut self, book: &Book<N>, stripe: u32, row: u8) -> Receipt<N>
        requires { IsSome (slice_get (receipts_of self.old stripe) row) }
        ensures receipt { slice_get (receipts_of self.old stripe) row ≡ Some result }
        ensures kept { self.new ≡ self.old }
    {
        self.files.receipt(book, stripe, row)
    }
}

impl<N: Names> Catalog<N> {
    /// The sizes that it was made with.
    pub fn shape(&self) -> Shape
        ensures shape { result ≡ self.now.shape }
        ensures range { IsInRange self.now.shape }
        ensures nodes { length self.now.nodes ≡ self.now.shape.nodes }
    {
        self.files.shape()
    }

    /// Whether a node is there and up.
    pub fn is_up(&self, node: u32) -> bool
        ensures { result ≡ is_up (plain self.now) node }
    {
        match self.nodes.get(node as usize) {
            Some(node) => node.node().up,
            None => false,
        }
    }

    /// The incarnation of a node, and 0 where there is none.
    pub fn inc(&self, node: u32) -> u32
        ensures { result ≡ inc_of (plain self.now) node }
    {
        match self.nodes.get(node as usize) {
            Some(node) => node.node().inc,
            None => 0,
        }
    }

    /// How many nodes are up.
    pub fn up_count(&self) -> u32
        ensures { result ≡ up_count (plain self.now) }
    {
        self.nodes.iter().filter(|node| node.node().up).count() as u32
    }

    /// The mask of the nodes that are up: bit m for node m.
    pub fn up_mask(&self) -> u32
        ensures { result ≡ up_mask (plain self.now) }
    {
        up_among(&self.nodes)
    }

    /// How many live blocks stand on a node.
    pub fn live_on(&self, node: u32) -> u32
        ensures { result ≡ live_of self.now.nodes node }
    {
        match self.nodes.get(node as usize) {
            Some(node) => node.live(),
            None => 0,
        }
    }

    /// The position of the first loss of a node that is not before `point`, if there is one.
    pub fn first_loss_from(&self, node: u32, point: u32) -> Option<u32>
        ensures { result ≡ first_loss self.now.nodes point node }
    {
        first_from(&self.nodes, node as usize, point)
    }

    /// The position of the first loss of a node of a mask that is not before `point`, if there is one.
    pub fn first_loss_among(&self, nodes: u32, point: u32) -> Option<u32>
        ensures { result ≡ first_loss_among self.now.nodes nodes point }
    {
        first_among(&self.nodes, nodes, point)
    }
}
