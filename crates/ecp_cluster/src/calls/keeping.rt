//! The rows of a put at their nodes.
//!
//! Each is kept and removed under its node's lock alone.
ghost use Rattle.std.specs.Prelude.{◌≡◌, ◌+◌, ◌*◌, ◌<◌, ◌≤◌, length, vec_len, vec_capacity, IfOk, OnOk};
ghost use Rattle.ecp_code.specs.Stripes.{blocks, stripe_count};
ghost use Rattle.ecp_coord.specs.Puts.{AreReceipts};
ghost use Rattle.ecp_cluster.specs.Keeping.{AddsRows, AreFirstKept, HasPlaces, IsKeptAs, IsKeptFor, KeepsRow};

use crate::NoMemory;
use crate::service::Service;
use ecp_book::{Book, Names};
use ecp_code::Code;
use ecp_coord::Reservation;
use ecp_helper::Gate;
use ecp_node::{Node, NodeKeep, Receipt};
use ecp_plan::place;
use ecp_store::Store;
use std::sync::Wait;

/// Why the rows of a put are not kept. None of them stays kept.
#[derive(Clone, Copy, Debug, PartialEq, Eq)]
pub(crate) enum NotKept {
    /// A node of the places was lost since.
    Gone,
    /// Want of memory, or a store that failed.
    NoMemory,
}

impl<N: Names, S: Store, G: Gate> Service<N, S, G> {
    /// Keeps each row of the file at its node, and gives the receipts: number i * n + r is that of row r of its stripe i.
    pub(crate) fn keep_rows<R: Wait>(
        &self,
        rt: &R,
        res: &Reservation<N>,
        bytes: &[u8],
    ) -> Result<Vec<Receipt<N>>, NotKept>
        requires places { HasPlaces N.shape res.now }
        requires counted { res.now.stripes ≡ stripe_count N.shape.k N.shape.block (length bytes.now) }
        requires len { length bytes.now ≡ res.now.len }
        ensures { IfOk result (λ rows. AreReceipts N.shape N.told res.now bytes.now rows.items) }
    {
        let Ok(code) = Code::new(self.shape.n, self.shape.k) else {
            unreachable!()
        };
        let count = res.stripes as usize * usize::from(code.n());
        let Ok(mut rows) = Vec::with_capacity(self.alloc, count) else {
            return Err(NotKept::NoMemory);
        };
        for i in 0..res.stripes {
            if let Err(why) = self.keep_stripe(rt, &code, res, bytes, i, &mut rows) {
                self.remove_rows(rt, rows);
                return Err(why);
            }
        }
        Ok(rows)
    }

    // The rows of stripe i of the file. Its bytes are taken in place where the file has all of them, and else zeros follow.
    fn keep_stripe<R: Wait>(
        &self,
        rt: &R,
        code: &Code,
        res: &Reservation<N>,
        bytes: &[u8],
        i: u32,
        rows: &mut Vec<Receipt<N>>,
    ) -> Result<(), NotKept>
        requires code { (code.now.n ≡ N.shape.n) × (code.now.k ≡ N.shape.k) }
        requires places { HasPlaces N.shape res.now }
        requires stripe { i < stripe_count N.shape.k N.shape.block (length bytes.now) }
        requires first { AreFirstKept N.shape N.told res.now bytes.now (i * N.shape.n) rows.old.items }
        requires room { (i + 1) * N.shape.n ≤ vec_capacity rows.old }
        ensures ok { OnOk result (AreFirstKept N.shape N.told res.now bytes.now ((i + 1) * N.shape.n) rows.new.items) }
        ensures room { vec_capacity rows.new ≡ vec_capacity rows.old }
    {
        let Some(stripe) = res.first.checked_add(i) else {
            return Err(NotKept::NoMemory);
        };
        let size = usize::from(code.k()) * self.shape.block as usize;
        let rest = &bytes[i as usize * size..];
        if rest.len() >= size {
            return self.keep_each(rt, code, res, i, stripe, &rest[..size], rows);
        }
        let Ok(mut filled) = rest.to_vec(self.alloc) else {
            return Err(NotKept::NoMemory);
        };
        let Ok(()) = filled.resize(size, 0) else {
            return Err(NotKept::NoMemory);
        };
        self.keep_each(rt, code, res, i, stripe, &filled, rows)
    }

    // The rows of stripe i, which has this number and these bytes as its data.
    fn keep_each<R: Wait>(
        &self,
        rt: &R,
        code: &Code,
        res: &Reservation<N>,
        i: u32,
        stripe: u32,
        whole: &[u8],
        rows: &mut Vec<Receipt<N>>,
    ) -> Result<(), NotKept>
        requires code { (code.now.n ≡ N.shape.n) × (code.now.k ≡ N.shape.k) }
        requires places { HasPlaces N.shape res.now }
        requires number { stripe ≡ res.now.first + i }
        requires whole { length whole.now ≡ N.shape.k * N.shape.block }
        requires room { vec_len rows.old + N.shape.n ≤ vec_capacity rows.old }
        ensures ok { OnOk result (AddsRows N.shape N.told res.now i (blocks N.shape.k N.shape.block whole.now) rows.old.items N.shape.n rows.new.items) }
        ensures room { vec_capacity rows.new ≡ vec_capacity rows.old }
    {
        for row in 0..code.n() {
            let receipt = self.keep_row(rt, code, res, stripe, row, whole)?;
            rows.push_reserved(receipt);
        }
        Ok(())
    }

    // Row `row` of a stripe whose data these bytes are: a part of them, or a sum that is made here.
    fn keep_row<R: Wait>(
        &self,
        rt: &R,
        code: &Code,
        res: &Reservation<N>,
        stripe: u32,
        row: u8,
        whole: &[u8],
    ) -> Result<Receipt<N>, NotKept>
        requires code { (code.now.n ≡ N.shape.n) × (code.now.k ≡ N.shape.k) }
        requires places { HasPlaces N.shape res.now }
        requires row { row < N.shape.n }
        requires whole { length whole.now ≡ N.shape.k * N.shape.block }
        ensures { IfOk result (IsKeptFor N.shape N.told res.now stripe row (blocks N.shape.k N.shape.block whole.now)) }
    {
        if row < code.k() {
            let block = self.shape.block as usize;
            let start = usize::from(row) * block;
            return self.keep_at(rt, res, stripe, row, &whole[start..start + block]);
        }
        match code.row_of(self.alloc, whole, row) {
            Ok(block) => self.keep_at(rt, res, stripe, row, block.bytes()),
            Err(NoMemory) => Err(NotKept::NoMemory),
        }
    }

    // The block of a row at the row's place. A node whose log is full is asked again, for as long as it is.
    fn keep_at<R: Wait>(
        &self,
        rt: &R,
        res: &Reservation<N>,
        stripe: u32,
        row: u8,
        block: &[u8],
    ) -> Result<Receipt<N>, NotKept>
        requires places { HasPlaces N.shape res.now }
        requires row { row < N.shape.n }
        ensures { IfOk result (KeepsRow N.shape N.told res.now stripe row block.now) }
    {
        let node = place(res.up, stripe, row);
        let inc = res.incs[usize::from(node)];
        for _ in rt.forever() {
            match self.try_keep(rt, node, inc, stripe, row, block) {
                Ok(receipt) => return Ok(receipt),
                Err(NodeKeep::Full) => {}
                Err(NodeKeep::Gone(_)) => return Err(NotKept::Gone),
                Err(NodeKeep::Failed | NodeKeep::NoMemory) => return Err(NotKept::NoMemory),
            }
        }
        unreachable!()
    }

    // One try, under the node's lock.
    fn try_keep<R: Wait>(
        &self,
        rt: &R,
        node: u8,
        inc: u32,
        stripe: u32,
        row: u8,
        block: &[u8],
    ) -> Result<Receipt<N>, NodeKeep>
        requires { node < N.shape.nodes }
        ensures { IfOk result (IsKeptAs node inc stripe row block.now) }
    {
        let mut helper = self.helpers[usize::from(node)].lock(rt);
        keep_in(&self.book, helper.node(), node, inc, stripe, row, block)
    }

    /// Removes these rows, each at its node. What a store makes of that changes nothing.
    pub(super) fn remove_rows<R: Wait>(&self, rt: &R, rows: Vec<Receipt<N>>) {
        for mut row in rows {
            self.remove_row(rt, &mut row);
        }
    }

    // One of them, under its node's lock.
    fn remove_row<R: Wait>(&self, rt: &R, row: &mut Receipt<N>) {
        if let Some(helper) = self.helpers.get(usize::from(row.node())) {
            let mut helper = helper.lock(rt);
            remove_in(&self.book, helper.node(), row);
        }
    }
}

// Keeps a block in the node, which has this number. What is found in a place is known by its type alone, so the number is
// looked at: a node of another one, which no place has, answers as one that is full.
fn keep_in<N: Names, S: Store>(
    book: &Book<N>,
    at: &mut Node<N, S>,
    node: u8,
    inc: u32,
    stripe: u32,
    row: u8,
    block: &[u8],
) -> Result<Receipt<N>, NodeKeep>
    ensures { IfOk result (IsKeptAs node inc stripe row block.now) }
{
    if at.number() != node {
        return Err(NodeKeep::Full);
    }
    at.keep(book, stripe, row, inc, block)
}

// Removes a row from its node.
fn remove_in<N: Names, S: Store>(book: &Book<N>, at: &mut Node<N, S>, row: &mut Receipt<N>) {
    if at.number() == row.node() {
        let _ = at.remove(book, row);
    }
}
