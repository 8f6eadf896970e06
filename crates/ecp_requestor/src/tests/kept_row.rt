ghost use Rattle.std.specs.Prelude.{◌≡◌, ◌<◌, IsTrue, IfOk};
ghost use Rattle.ecp_node.specs.Nodes.{start_of};
ghost use Rattle.ecp_plan.specs.Plans.{IsSound};
ghost use Rattle.ecp_slice.specs.OneFile.{three_rows, IsReceiptOf};
ghost use Rattle.ecp_requestor.specs.OneBlock.{file_front, first_block, IsOfFirst};

use crate::errand::Errand;
use crate::{Accepted, Assembly};
use ecp_book::{Blank, Book, Entered, Names, Tag};
use ecp_history::Part;
use ecp_node::{Node, Receipt};
use ecp_plan::{Hop, Plan, Voids};
use ecp_slice::{Cancel, SliceMsg};
use ecp_store::Store;
use std::alloc::Global;
use std::test::Fail;

/// The file, as an entry of the history.
#[derive(Drop)]
struct FileStored;

impl Entered for FileStored {
    ghost use Rattle.ecp_slice.specs.OneFile.{file_item};
    ghost use Rattle.ecp_requestor.specs.OneBlock.{file_bytes};

    ghost item = { λ _. file_item file_bytes };
}

/// A history that stores a file, and the file's first block on node 0.
#[derive(Drop)]
pub(crate) struct KeptRow<N: Names, S: Store> {
    book: Book<N>,
    front: Tag<N>,
    node: Node<N, S>,
    receipt: Receipt<N>,
    ghost of_shape: { N.shape ≡ three_rows 2 },
    ghost of_file: { front ≡ file_front },
    ghost on_node: { node.number ≡ 0 },
    ghost names: { IsReceiptOf receipt 0 0 first_block },
}

impl<N: Names, S: Store + Drop> KeptRow<N, S> {
    pub(crate) fn new(alloc: Global, blank: Blank, store: S) -> Result<KeptRow<N, S>, Fail>
        requires book { blank ≡ N.book }
        requires shape { N.shape ≡ three_rows 2 }
        requires tells { IsTrue S.tells }
        requires start { start_of N.stores 0 ≡ record { faults = S.faults store; faultless = S.faultless store } }
    {
        let (book, mut keepers) = Book::<N>::open(alloc, blank)?;
        let of_node = keepers.pop().ok_or("log 1")?;
        let mut history = keepers.pop().ok_or("log 0")?;
        if of_node.log() != 1 || of_node.len() != 0 || history.log() != 0 || history.len() != 0 {
            return Err("two empty logs".into());
        }
        book.append(&mut history, &FileStored);
        let front = book.tag(&mut history);
        let past = book.tag(&mut history);
        let mut node = Node::new(alloc, 0, store, of_node, past);
        let Ok(receipt) = node.keep(&book, 0, 0, 0, &[0x41, 0x42]) else {
            return Err("kept".into());
        };
        Ok(KeptRow {
            book,
            front,
            node,
            receipt,
        })
    }

    /// The plan that takes the block from its node, in two slices.
    fn plan(&mut self, alloc: Global, repair: u64, attempt: u32) -> Result<Plan<N>, Fail>
        ensures sound { IfOk result (IsSound N.shape N.told) }
        ensures first { IfOk result (IsOfFirst repair) }
    {
        let mut hops = Vec::with_capacity(alloc, 1)?;
        hops.push(Hop {
            row: 0,
            node: 0,
            inc: 0,
            weight: 1,
            receipt: self.receipt.copy(&self.book),
        })?;
        Ok(Plan {
            repair,
            attempt,
            part: Part::End,
            stripe: 0,
            row: 0,
            lanes: 1,
            hops,
            block: 2,
            slice: 1,
            point: 1,
            front: self.book.copy(&mut self.front),
            to: None,
            voids: Voids {
                len: 0,
                at: [0; 16],
            },
        })
    }

    /// An assembly of its block that took slice 0 of one attempt, and then took up another one.
    pub(crate) fn renewed(
        &mut self,
        alloc: Global,
        repair: u64,
        from: u32,
        to: u32,
    ) -> Result<Assembly<N>, Fail> {
        let mut plan = self.plan(alloc, repair, from)?;
        let mut next = self.plan(alloc, repair, to)?;
        let mut assembly = Assembly::new(alloc, &self.book, &mut plan)?;
        let mut msg = self.started(alloc, repair, from, 0)?;
        self.add_next(&mut msg)?;
        if !msg.is_full() {
            return Err("one helper".into());
        }
        if assembly.accept(&self.book, &mut msg) != Accepted::Taken {
            return Err("taken".into());
        }
        assembly.renew(&self.book, &mut next);
        Ok(assembly)
    }

    /// A fetch of its block, of which one slice is under way at a time.
    pub(crate) fn errand(&mut self, alloc: Global) -> Result<Errand<N>, Fail> {
        let plan = self.plan(alloc, 5, 1)?;
        Ok(Errand::begin(alloc, &self.book, plan, 1, 0)?)
    }

    /// The book of its history.
    pub(crate) fn book(&self) -> &Book<N> {
        &self.book
    }

    /// What an assembly answers to the full message of a slice.
    pub(crate) fn give(
        &mut self,
        alloc: Global,
        assembly: &mut Assembly<N>,
        repair: u64,
        attempt: u32,
        slice: u32,
    ) -> Result<Accepted, Fail> {
        let mut msg = self.started(alloc, repair, attempt, slice)?;
        self.add_next(&mut msg)?;
        if !msg.is_full() {
            return Err("one helper".into());
        }
        Ok(assembly.accept(&self.book, &mut msg))
    }

    // The message that begins a slice.
    fn started(
        &mut self,
        alloc: Global,
        repair: u64,
        attempt: u32,
        slice: u32,
    ) -> Result<SliceMsg<N>, Fail> {
        let mut plan = self.plan(alloc, repair, attempt)?;
        if slice >= plan.slices() {
            return Err("a slice of the plan".into());
        }
        let mut cancel = Cancel::new(alloc)?;
        let msg = SliceMsg::start(alloc, &self.book, &mut plan, slice, &mut cancel, 0)?;
        Ok(msg)
    }

    /// Adds the slice of the block's node.
    pub(crate) fn add_next(&mut self, msg: &mut SliceMsg<N>) -> Result<(), Fail> {
        if msg.is_full() || msg.len() != 1 {
            return Err("a helper and a byte".into());
        }
        let hop = msg.next_hop();
        if msg.nodes().get(usize::from(hop)) != Some(&self.node.number()) {
            return Err("the node of the block".into());
        }
        let mut byte = [0];
        if msg
            .read_from(&self.book, &mut self.node, &mut byte)
            .is_err()
        {
            return Err("read".into());
        }
        msg.add(hop, &byte);
        Ok(())
    }
}
