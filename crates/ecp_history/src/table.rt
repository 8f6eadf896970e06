ghost use Rattle.std.specs.Prelude.{◌≡◌, ◌+◌, ◌^◌, ◌<◌, ◌≤◌, false, length, min, true, IfOk, IsSome, OnErr, OnOk};
ghost use Rattle.ecp_code.specs.Stripes.{stripe_count, stripes};
ghost use Rattle.ecp_history.specs.table.Changes.{CanChange};
ghost use Rattle.ecp_history.specs.Calls.{Agrees, put_len};
ghost use Rattle.ecp_entry.specs.Entries.{deed_name, deed_node};
ghost use Rattle.ecp_history.specs.table.Placement.{nodes_in};
ghost use Rattle.ecp_history.specs.table.Steps.{after, given_up, joined, live_onto, lost, stored, with_block};
ghost use Rattle.ecp_shape.specs.Range.{IsInRange};
ghost use Rattle.ecp_history.specs.table.Tables.{block, block_count, file_of, inc_of, is_live, is_lost, is_up, live_on, live_rows, start, stripe_of, up_count, up_mask};

mod block_name;
mod counts;
mod file;
mod node;
mod placed_stripe;
mod standing;
mod storing;
mod stripe_list;

pub use block_name::BlockName;
use counts::{LAST_COUNT, live_among, live_at, live_over, lost_at, up_among};
use ecp_code::Code;
use ecp_entry::{Act, Deed, Entry, Name};
use ecp_shape::Shape;
use ecp_store::{Block, NoMemory};
pub use file::File;
pub use node::Node;
use placed_stripe::PlacedStripe;
pub use standing::Standing;
use std::alloc::Global;
use std::collections::BTreeMap;
use std::marker::Model;
use storing::{nodes_of, put_all, stripes_of};
use stripe_list::{give_up_in, lose_all, restore_in, stripe_with};

/// The plain table: which files there are, where their blocks stand, and which nodes are up.
#[derive(Debug, Drop)]
pub struct Table {
    alloc: Global,
    shape: Shape,
    code: Code,
    files: Vec<File>,
    names: BTreeMap<Name, usize>,
    stripes: Vec<PlacedStripe>,
    nodes: Vec<Node>,
}

impl Model for Table {
    ghost use Rattle.ecp_history.specs.table.Tables.{Shaped};

    ghost Value = { Shaped };

    ghost use Rattle.ecp_history.specs.table.Kept.{IsKept, shown};

    ghost view = { shown };

    ghost invariant = { IsKept };
}

impl Table {
    /// The table at the start: no file, and all nodes up.
    pub fn new(alloc: Global, shape: Shape) -> Result<Table, NoMemory>
        requires { IsInRange shape }
        ensures shape { IfOk result (λ t. t.shape ≡ shape) }
        ensures table { IfOk result (λ t. t.table ≡ start shape) }
    {
        let nodes = vec![in alloc; Node { up: true, inc: 0 }; shape.nodes as usize]?;
        match Code::new(shape.n, shape.k) {
            Ok(code) => Ok(Table {
                alloc,
                shape,
                code,
                files: Vec::new(alloc),
                names: BTreeMap::new(alloc),
                stripes: Vec::new(alloc),
                nodes,
            }),
            Err(_) => unreachable!(),
        }
    }

    /// The table after an entry. A refusal changes nothing.
    pub fn after(&mut self, entry: &Entry) -> Result<(), NoMemory>
        requires agrees { Agrees entry.now }
        requires changes { CanChange self.old.shape self.old.table entry.now entry.now.line.act }
        ensures shape { self.new.shape ≡ self.old.shape }
        ensures ok { OnOk result (self.new.table ≡ after self.old.shape self.old.table entry.now) }
        ensures err { OnErr result (self.new.table ≡ self.old.table) }
    {
        match entry.line.act {
            Act::Stored { first, up, .. } => return self.store_entry(entry, first, up),
            Act::Lost(_) => {
                if let Some(node) = node_of(&entry.deed) {
                    self.lose(node);
                }
            }
            Act::Joined(inc) => {
                if let Some(node) = node_of(&entry.deed) {
                    self.join(node, inc);
                }
            }
            Act::Restored {
                stripe,
                row,
                node,
                ..
            } => self.restore(stripe, row, node),
            Act::Drop { stripe, row } => self.give_up(stripe, row),
            _ => {}
        }
        Ok(())
    }

    /// The newest file with this name, if there is one.
    pub fn file(&self, name: &Name) -> Option<File>
        ensures { result ≡ file_of self.now.table name.now }
    {
        let at = self.names.get(name)?;
        self.files.get(*at).copied()
    }
}

/// The node that a deed makes go down or come up, if it does.
fn node_of(deed: &Option<Deed>) -> Option<u32>
    ensures { result ≡ deed_node deed.now }
{
    match deed {
        Some(Deed::Lose { node }) => Some(*node),
        Some(Deed::Join { node }) => Some(*node),
        _ => None,
    }
}

impl Table {
    /// Stores the file of an entry. A refusal changes nothing.
    fn store_entry(&mut self, entry: &Entry, first: u32, up: u32) -> Result<(), NoMemory>
        requires name { entry.now.name ≡ deed_name entry.now.deed }
        requires len { put_len entry.now.deed ≡ Some (length entry.now.bytes) }
        requires nodes { self.old.shape.n ≤ length (nodes_in up) }
        requires numbers { first + length (stripes self.old.shape.k self.old.shape.block entry.now.bytes) < 2 ^ 32 }
        ensures shape { self.new.shape ≡ self.old.shape }
        ensures ok { OnOk result (self.new.table ≡ stored self.old.shape self.old.table entry.now.name entry.now.bytes first up) }
        ensures err { OnErr result (self.new.table ≡ self.old.table) }
    {
        match &entry.deed {
            Some(Deed::Put { name, len }) => {
                self.store(*name, *len, entry.bytes.bytes(), first, up)
            }
            Some(
                Deed::Read { .. }
                | Deed::Sum { .. }
                | Deed::Cat { .. }
                | Deed::Lose { .. }
                | Deed::Join { .. }
                | Deed::Rebuild { .. }
                | Deed::Stat { .. },
            )
            | None => unreachable!(),
        }
    }

    /// Stores a file under its name. A refusal changes nothing.
    fn store(
        &mut self,
        name: Name,
        len: u32,
        bytes: &[u8],
        first: u32,
        up: u32,
    ) -> Result<(), NoMemory>
        requires len { len ≡ length bytes.now }
        requires nodes { self.old.shape.n ≤ length (nodes_in up) }
        requires numbers { first + length (stripes self.old.shape.k self.old.shape.block bytes.now) < 2 ^ 32 }
        ensures shape { self.new.shape ≡ self.old.shape }
        ensures ok { OnOk result (self.new.table ≡ stored self.old.shape self.old.table name bytes.now first up) }
        ensures err { OnErr result (self.new.table ≡ self.old.table) }
    {
        let count = self.code.stripe_count(len, self.shape.block);
        let nodes = nodes_of(self.alloc, up)?;
        let added = stripes_of(
            self.alloc,
            &self.code,
            bytes,
            self.shape.block,
            self.shape.n,
            first,
            &nodes,
            count,
        )?;
        self.files.reserve(1)?;
        self.stripes.reserve(added.len())?;
        self.names.insert(name, self.files.len())?;
        self.files.push_reserved(File {
            name,
            len,
            first,
            stripes: count,
        });
        put_all(&mut self.stripes, added);
        Ok(())
    }

    /// The node is down, and every block on it is lost.
    fn lose(&mut self, node: u32)
        requires { node < self.old.shape.nodes }
        ensures shape { self.new.shape ≡ self.old.shape }
        ensures table { self.new.table ≡ lost self.old.table node }
    {
        lose_all(&mut self.stripes, node as u8);
        self.nodes[node as usize].up = false;
    }

    /// The node is up in this incarnation.
    fn join(&mut self, node: u32, inc: u32)
        requires { node < self.old.shape.nodes }
        ensures shape { self.new.shape ≡ self.old.shape }
        ensures table { self.new.table ≡ joined self.old.table node inc }
    {
        self.nodes[node as usize] = Node { up: true, inc };
    }

    /// The block is live on the node.
    fn restore(&mut self, stripe: u32, row: u8, node: u8)
        ensures shape { self.new.shape ≡ self.old.shape }
        ensures table { self.new.table ≡ with_block self.old.table stripe row (live_onto node) }
    {
        restore_in(&mut self.stripes, stripe, row, node);
    }

    /// The block is lost where it stands.
    fn give_up(&mut self, stripe: u32, row: u8)
        ensures shape { self.new.shape ≡ self.old.shape }
        ensures table { self.new.table ≡ with_block self.old.table stripe row given_up }
    {
        give_up_in(&mut self.stripes, stripe, row);
    }
}

impl Table {
    /// The sizes that it was made with.
    pub fn shape(&self) -> Shape
        ensures { result ≡ self.now.shape }
    {
        self.shape
    }

    /// Whether a node is there and up.
    pub fn is_up(&self, node: u32) -> bool
        ensures { result ≡ is_up self.now.table node }
    {
        match self.nodes.get(node as usize) {
            Some(node) => node.up,
            None => false,
        }
    }

    /// The incarnation of a node, and 0 where there is none.
    pub fn incarnation(&self, node: u32) -> u32
        ensures { result ≡ inc_of self.now.table node }
    {
        match self.nodes.get(node as usize) {
            Some(node) => node.inc,
            None => 0,
        }
    }

    /// How many nodes are up.
    pub fn up_count(&self) -> u32
        ensures { result ≡ up_count self.now.table }
    {
        self.nodes.iter().filter(|node| node.up).count() as u32
    }

    /// The mask of the nodes that are up: bit m for node m.
    pub fn up_mask(&self) -> u32
        ensures { result ≡ up_mask self.now.table }
    {
        up_among(&self.nodes)
    }

    /// Whether a block is live.
    pub fn is_live(&self, stripe: u32, row: u8) -> bool
        ensures { result ≡ is_live self.now.table stripe row }
    {
        match stripe_with(&self.stripes, stripe) {
            Some(stripe) => live_at(stripe.rows(), row),
            None => false,
        }
    }

    /// Whether a block is there and lost.
    pub fn is_lost(&self, stripe: u32, row: u8) -> bool
        ensures { result ≡ is_lost self.now.table stripe row }
    {
        match stripe_with(&self.stripes, stripe) {
            Some(stripe) => lost_at(stripe.rows(), row),
            None => false,
        }
    }

    /// How many blocks are live on a node. It stands still at `u32::MAX`.
    pub fn live_on(&self, node: u32) -> u32
        ensures { result ≡ min (live_on self.now.table node) LAST_COUNT }
    {
        live_over(&self.stripes, node)
    }

    /// How many rows of a stripe are live.
    pub fn live_rows(&self, stripe: u32) -> usize
        ensures { result ≡ live_rows self.now.table stripe }
    {
        match stripe_with(&self.stripes, stripe) {
            Some(stripe) => live_among(stripe.rows()),
            None => 0,
        }
    }

    /// How many stripes a file of this many bytes has.
    pub fn stripe_count(&self, len: u32) -> u32
        ensures { result ≡ stripe_count self.now.shape.k self.now.shape.block len }
    {
        self.code.stripe_count(len, self.shape.block)
    }

    /// How many blocks a file has, without those that only fill its last stripe.
    pub fn block_count(&self, file: &File) -> u32
        ensures { result ≡ block_count self.now.shape file.now }
    {
        file.len.div_ceil(self.shape.block)
    }

    /// The bytes of a row of a stripe, made from its data alone.
    ///
    /// Takes memory once, for the block.
    pub fn row(&self, stripe: u32, row: u8) -> Result<Block, NoMemory>
        requires stripe { IsSome (stripe_of self.now.table stripe) }
        requires row { row < self.now.shape.n }
        ensures { IfOk result (λ bytes. bytes ≡ block self.now.table stripe row) }
    {
        match stripe_with(&self.stripes, stripe) {
            Some(stripe) => self.code.encode(self.alloc, stripe.blocks(), row),
            None => unreachable!(),
        }
    }
}
