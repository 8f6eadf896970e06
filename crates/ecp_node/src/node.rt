ghost use Rattle.std.specs.Prelude.{◌≡◌, ℕ, ◌+◌, ◌<◌, ◌≤◌, [], ◌∷◌, ◌++◌, length, None, nat_eq, IsTrue, IsSome, IfSome, IsOk, IfOk, OnOk};
ghost use mathlib.Core.List.{IsPrefix};
ghost use Rattle.std.specs.HashMap as hash;
ghost use Rattle.ecp_book.specs.Logs.{empty_log, node_log, history_log};
ghost use Rattle.ecp_shape.specs.Losses.{losses};
ghost use Rattle.ecp_store.specs.Faults.{Counts};
ghost use Rattle.ecp_store.specs.Stores.{part};
ghost use Rattle.ecp_node.specs.Items.{spent_item};
ghost use Rattle.ecp_node.specs.Held.{wipes, faults, spends, IsAtEnd};
ghost use Rattle.ecp_node.specs.Receipts.{named, next_kept, receipt_for};
ghost use Rattle.ecp_node.specs.Nodes.{NodeState, start_of, with_item, after_keep, after_read, after_remove, after_wipe, KeepAnswers, ReadAnswers, IsSound};
ghost use Rattle.ecp_node.specs.Shelves.{IsNode, Stores};

use crate::limits::MAX_LOSSES;
use crate::node_log::NodeLog;
use crate::shelf::{Index, keep_block, remove_all};
use crate::{Fault, NodeKeep, NodeRead, Receipt};
use ecp_book::{Book, Keeper, Names, Tag};
use ecp_store::{Failed, KeepFault, Key, Store};
use std::alloc::Global;
use std::collections::HashMap;
use std::marker::Model;
use std::mem;

/// A node: blocks in a store that may fail, and the log of what became of them.
///
/// A block that was kept has a [`Receipt`], which stands for its bytes for ever. A read gives just these bytes or says
/// why not. `book` is the one that the node's keeper, tags and receipts belong to.
#[derive(Drop)]
pub struct Node<N: Names, S: Store> {
    log: NodeLog<N>,
    past: Tag<N>,
    store: S,
    index: Index,
    fault: Option<Fault>,
}

impl<N: Names, S: Store> Model for Node<N, S> {
    ghost use Rattle.std.specs.Prelude.{nat_eq};
    ghost use Rattle.std.specs.HashMap as hash;
    ghost use Rattle.ecp_node.specs.Nodes.{NodeState, node_seen, start_of};
    ghost use Rattle.ecp_node.specs.Shelves.{IsNode};

    ghost Value = { NodeState };

    ghost view = { λ n. node_seen n.log n.past.items n.fault (S.faults n.store) (S.served n.store) };

    ghost invariant = { λ n. IsNode S.Store N.told (start_of N.stores n.log.node) n.past.log n.store (hash.get nat_eq n.index) (node_seen n.log n.past.items n.fault (S.faults n.store) (S.served n.store)) };
}

impl<N: Names, S: Store> Node<N, S> {
    /// A node that has kept nothing, over this store. `past` is what it knows of the history.
    pub fn new(alloc: Global, number: u8, store: S, keeper: Keeper<N>, past: Tag<N>) -> Node<N, S>
        requires log { keeper ≡ empty_log (node_log number) }
        requires past { past.log ≡ history_log }
        requires told { IsTrue N.told → IsTrue S.tells }
        requires start { start_of N.stores number ≡ record { faults = S.faults store; faultless = S.faultless store } }
        ensures { result ≡ record { number = number; items = []; past = past.items; fault = None; store_faults = S.faults store; served = S.served store } }
    {
        Node {
            log: NodeLog::new(keeper, number),
            past,
            store,
            index: HashMap::new(alloc),
            fault: None,
        }
    }

    /// Its number.
    pub fn number(&self) -> u8
        ensures number { result ≡ self.now.number }
        ensures sound { IsSound (start_of N.stores self.now.number) self.now }
    {
        let _ = &self.store;
        self.log.node()
    }

    /// How often it was wiped: the number of its incarnation.
    pub fn incarnation(&self) -> u32
        ensures { result ≡ wipes self.now.items }
    {
        self.log.wiped()
    }

    /// How many failures of its store its log has.
    pub fn faults(&self) -> u64
        ensures { result ≡ faults self.now.items }
    {
        self.log.faulted()
    }

    /// How many of them were spent.
    pub fn spent(&self) -> u64
        ensures count { result ≡ spends self.now.items }
        ensures paid { spends self.now.items ≤ faults self.now.items }
    {
        self.log.spent()
    }

    /// The failure that can be spent now: that of the last keep or read, unless it was spent or the node was wiped.
    pub fn fault(&self) -> Option<Fault>
        ensures fault { result ≡ self.now.fault }
        ensures unspent { IfSome result (λ _. spends self.now.items < faults self.now.items) }
    {
        self.fault
    }

    /// Gives its store back, which holds the bytes of each block that the log holds.
    pub fn into_store(self) -> S
        ensures faults { S.faults result ≡ self.store_faults }
        ensures served { S.served result ≡ self.served }
        ensures held { IsTrue S.tells → Stores (S.held result) self.items }
    {
        let Node {
            log: _,
            past: _,
            store,
            index: _,
            fault: _,
        } = self;
        store
    }

    /// Keeps a block for the incarnation `inc`. Looks at the incarnation first, then at the log, and then asks its store.
    ///
    /// After an error nothing is kept. Takes memory once, beside what the store takes.
    pub fn keep(
        &mut self,
        book: &Book<N>,
        stripe: u32,
        row: u8,
        inc: u32,
        bytes: &[u8],
    ) -> Result<Receipt<N>, NodeKeep>
        ensures answer { KeepAnswers result self.old inc self.new.store_faults }
        ensures receipt { IfOk result (λ r. r ≡ receipt_for self.old.number self.old.items (next_kept self.old.items stripe row bytes.now)) }
        ensures node { self.new ≡ after_keep result self.old (next_kept self.old.items stripe row bytes.now) self.new.store_faults }
    {
        self.fault = None;
        let now = self.log.wiped();
        if inc != now {
            return Err(NodeKeep::Gone(now));
        }
        if self.log.is_at_end() {
            return Err(NodeKeep::Full);
        }
        let key = Key {
            stripe,
            row,
            serial: self.log.len(),
        };
        match keep_block(&mut self.store, &mut self.index, key, bytes) {
            Ok(()) => Ok(Receipt::enter(&mut self.log, book, stripe, row, bytes)),
            Err(KeepFault::NoMemory) => Err(NodeKeep::NoMemory),
            Err(KeepFault::Failed) => {
                self.log.fault(book);
                self.fault = Some(Fault {
                    stripe,
                    row,
                    wrote: true,
                });
                Err(NodeKeep::Failed)
            }
        }
    }

    /// Fills `buf` with the bytes at `off` of the block that the receipt names. Takes no memory.
    ///
    /// After an error `buf` may hold any bytes. A block that is lost is not looked for in the store.
    pub fn read_slice(
        &mut self,
        book: &Book<N>,
        receipt: &mut Receipt<N>,
        off: u32,
        buf: &mut [u8],
    ) -> Result<(), NodeRead>
        requires node { receipt.old.node ≡ self.old.number }
        requires within { off + length buf.old ≤ length receipt.old.bytes }
        ensures answer { ReadAnswers result self.old receipt.old.serial self.new.store_faults }
        ensures bytes { IsTrue S.tells → OnOk result (buf.new ≡ part receipt.old.bytes off (length buf.new)) }
        ensures told { IsTrue N.told → OnOk result (buf.new ≡ part receipt.old.bytes off (length buf.new)) }
        ensures node { self.new ≡ after_read result self.old (named receipt.old) (length buf.new) self.new.store_faults }
        ensures receipt { receipt.new ≡ receipt.old }
    {
        self.fault = None;
        receipt.meet(book, &mut self.log);
        let key = receipt.key();
        if !self.index.contains_key(&key.serial) {
            return Err(NodeRead::Lost(self.log.wiped()));
        }
        match self.store.read(key, off, buf) {
            Ok(()) => return Ok(()),
            Err(Failed) => {}
        }
        if self.log.is_at_end() {
            return Err(NodeRead::Failed);
        }
        self.log.fault(book);
        self.fault = Some(Fault {
            stripe: key.stripe,
            row: key.row,
            wrote: false,
        });
        Err(NodeRead::Failed)
    }

    /// Gives the block up, and asks the store to remove it, whether it was given up before or not. What is given up stays
    /// so, also where the store fails. At the log's end nothing changes.
    pub fn remove(&mut self, book: &Book<N>, receipt: &mut Receipt<N>) -> Result<(), Failed>
        requires { receipt.old.node ≡ self.old.number }
        ensures counts { Counts result self.old.store_faults self.new.store_faults }
        ensures at_end { IsAtEnd self.old.items → IsOk result }
        ensures node { self.new ≡ after_remove self.old receipt.old.serial self.new.store_faults }
        ensures receipt { receipt.new ≡ receipt.old }
    {
        receipt.meet(book, &mut self.log);
        if self.log.is_at_end() {
            return Ok(());
        }
        let key = receipt.key();
        if self.index.contains_key(&key.serial) {
            let _ = self.index.remove(&key.serial);
            self.log.remove(book, key.serial);
            return self.store.remove(key);
        }
        self.store.remove(key)
    }

    /// Gives all blocks up, after a loss that `past` has, and begins the next incarnation. Failures of the store change
    /// nothing else. Takes no memory.
    pub fn wipe(&mut self, book: &Book<N>, past: Tag<N>)
        requires past { past.log ≡ history_log }
        requires lost { wipes self.old.items < losses self.old.number past.items }
        requires few { losses self.old.number past.items ≤ MAX_LOSSES }
        ensures node { self.new ≡ after_wipe self.old past.items self.new.store_faults }
        ensures never_falls { self.old.store_faults ≤ self.new.store_faults }
    {
        self.fault = None;
        self.log.wipe(book);
        remove_all(&mut self.store, &mut self.index);
        let old = mem::replace(&mut self.past, past);
        book.end_tag(old);
    }

    /// Shows that the list of a tag on its log is a prefix of the log.
    pub fn meet(&mut self, book: &Book<N>, seen: &mut Tag<N>)
        requires { seen.old.log ≡ node_log self.old.number }
        ensures prefix { IsPrefix seen.old.items self.old.items }
        ensures sound { IsSound (start_of N.stores self.old.number) self.old }
        ensures seen { seen.new ≡ seen.old }
        ensures node { self.new ≡ self.old }
    {
        self.log.meet(book, seen);
    }

    /// What it knows of the history: a copy of the tag that it keeps, which has a loss of it for each time that it was
    /// wiped.
    pub fn past(&mut self, book: &Book<N>) -> Tag<N>
        ensures past { result ≡ record { log = history_log; items = self.old.past } }
        ensures lost_first { wipes self.old.items ≤ losses self.old.number self.old.past }
        ensures node { self.new ≡ self.old }
    {
        book.copy(&mut self.past)
    }

    /// Spends the failure that can be spent. `seen` is a tag on its log, and has all of it from then on.
    pub fn spend(&mut self, book: &Book<N>, seen: &mut Tag<N>)
        requires fault { IsSome self.old.fault }
        requires log { seen.old.log ≡ node_log self.old.number }
        ensures prefix { IsPrefix seen.old.items self.old.items }
        ensures seen { seen.new ≡ record { log = node_log self.old.number; items = self.new.items } }
        ensures node { self.new ≡ record (with_item self.old spent_item) { fault = None } }
    {
        self.log.meet(book, seen);
        self.log.spend(book);
        self.fault = None;
        let old = mem::replace(seen, self.log.tag(book));
        book.end_tag(old);
    }
}
