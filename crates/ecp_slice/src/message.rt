ghost use Rattle.std.specs.Prelude.{◌≡◌, ◌<◌, ◌↔◌, length, slice_index, IsTrue, IfOk};
ghost use Rattle.ecp_plan.specs.Order.{slice_count};
ghost use Rattle.ecp_plan.specs.Plans as plans;
ghost use Rattle.ecp_slice.specs.Messages.{helpers, next_hop, IsFull, HasNext, next_of, receipt_at, slice_of, started, restarted, after_add};
ghost use Rattle.ecp_slice.specs.Sound.{IsSound};

mod lending;
mod reading;

use crate::cancel::Cancel;
use crate::hops;
use crate::next::Next;
use crate::span::Span;
use crate::summing::{add_scaled, clear, zeros};
use ecp_book::{Book, Names, Tag};
use ecp_node::Receipt;
use ecp_plan::{Plan, hop_at};
use ecp_shape::limits::MAX_ROWS;
use ecp_store::NoMemory;
use std::alloc::Global;
use std::marker::Model;

/// The message of one slice, on its way through the helpers of a plan to who wants the block. Contracts see all that it
/// says.
///
/// It carries the sum of the slices of the helpers that were added, each times its weight, and says which these are: bit
/// i of [`summed`](SliceMsg::summed) is set for helper i. Every message is sound: its plan is sound by the history that
/// its front tells, and its payload is that sum. So a message of a link, a list or another thread needs no look at what
/// became of it, and a full one has its slice of the block.
///
/// It may go to another thread, and may be dropped. Its move is that of a pointer, since it passes through many hands.
#[derive(Drop)]
pub struct SliceMsg<N: Names> {
    parts: Box<Parts<N>>,
}

/// What a message carries.
#[derive(Drop)]
struct Parts<N: Names> {
    repair: u64,
    attempt: u32,
    slice: u32,
    summed: u32,
    stripe: u32,
    row: u8,
    lanes: u8,
    at: u8,
    home: u8,
    span: Span,
    block: u32,
    size: u32,
    rows: Vec<u8>,
    nodes: Vec<u8>,
    weights: Vec<u8>,
    room: Vec<u8>,
    route: Vec<Receipt<N>>,
    front: Tag<N>,
    cancel: Cancel,
}

impl<N: Names> Model for SliceMsg<N> {
    ghost use Rattle.ecp_slice.specs.Messages.{Message};

    ghost Value = { Message };

    ghost use Rattle.ecp_slice.specs.MessageParts.{message_seen, IsMessage};

    ghost view = { λ m. message_seen m.parts.value };

    ghost invariant = { λ m. IsMessage N.shape N.told m.parts.value };
}

impl<N: Names> SliceMsg<N> {
    /// The message that begins slice `slice` of a plan, with no helper added. It goes to the port `home` once it is full,
    /// and has a copy of the handle on the cancel word. The plan and the handle stay as they are.
    ///
    /// This is the only call of a message that takes memory: room for the largest slice of the plan, and for its helpers.
    /// Want of memory is the only error. A plan of more helpers than [`MAX_ROWS`] is refused so too; there is none where
    /// the shape is in its range.
    pub fn start(
        alloc: Global,
        book: &Book<N>,
        plan: &mut Plan<N>,
        slice: u32,
        cancel: &mut Cancel,
        home: u8,
    ) -> Result<SliceMsg<N>, NoMemory>
        requires sound { plans.IsSound N.shape N.told plan.old }
        requires slice { slice < slice_count plan.old.block plan.old.slice }
        ensures message { IfOk result (λ m. m ≡ started plan.old slice cancel.old home) }
        ensures plan { plan.new ≡ plan.old }
        ensures cancel { cancel.new ≡ cancel.old }
    {
        if plan.hops.len() > MAX_ROWS as usize {
            return Err(NoMemory);
        }
        let rows = hops::rows(alloc, &plan.hops)?;
        let nodes = hops::nodes(alloc, &plan.hops)?;
        let weights = hops::weights(alloc, &plan.hops)?;
        let room = zeros(alloc, plan.slice)?;
        let route = hops::receipts(alloc, book, plan.hops.as_mut_slice())?;
        let cancel = cancel.copy()?;
        let parts = Parts {
            repair: plan.repair,
            attempt: plan.attempt,
            slice,
            summed: 0,
            stripe: plan.stripe,
            row: plan.row,
            lanes: plan.lanes,
            at: 0,
            home,
            span: Span::of(plan.block, plan.slice, slice),
            block: plan.block,
            size: plan.slice,
            rows,
            nodes,
            weights,
            room,
            route,
            front: book.copy(&mut plan.front),
            cancel,
        };
        let parts = Box::new(alloc, parts)?;
        Ok(SliceMsg { parts })
    }

    /// Begins another slice of the same attempt: with no helper added, and zeros. Takes no memory.
    pub fn restart_for(&mut self, slice: u32)
        requires { slice < slice_count self.old.block self.old.size }
        ensures { self.new ≡ restarted self.old slice }
    {
        let parts = &mut *self.parts;
        parts.span = Span::of(parts.block, parts.size, slice);
        clear(parts.room.as_mut_slice(), parts.span.len);
        parts.slice = slice;
        parts.summed = 0;
        parts.at = 0;
    }

    /// Adds the next helper's slice, which are these bytes, times its weight, and sets its bit. Takes no memory.
    ///
    /// `hop` is the place of the helper whose node [`next`](SliceMsg::next) names, as [`next_hop`](SliceMsg::next_hop)
    /// answers it. The bytes are as many as the slice has; where payloads are told they are those that
    /// [`read_from`](SliceMsg::read_from) gives.
    pub fn add(&mut self, hop: u8, bytes: &[u8])
        requires more { HasNext self.old }
        requires hop { hop ≡ next_hop self.old }
        requires len { length bytes.now ≡ self.old.len }
        requires bytes { IsTrue N.told → bytes.now ≡ slice_of self.old (receipt_at self.old hop).bytes }
        ensures { self.new ≡ after_add self.old hop bytes.now }
    {
        let parts = &mut *self.parts;
        let weight = parts.weights[usize::from(hop)];
        add_scaled(parts.room.as_mut_slice(), parts.at == 0, weight, bytes);
        parts.summed |= 1 << hop;
        parts.at += 1;
    }

    /// Whether every helper was added.
    pub fn is_full(&self) -> bool
        ensures full { IsTrue result ↔ IsFull self.now }
        ensures sound { IsSound N.shape N.told self.now }
    {
        usize::from(self.parts.at) == self.parts.rows.len()
    }

    /// Where it goes next: to the node of the helper that is to be added, or home once it is full.
    pub fn next(&self) -> Next
        ensures next { result ≡ next_of self.now }
        ensures sound { IsSound N.shape N.told self.now }
    {
        if self.is_full() {
            return Next::Home(self.parts.home);
        }
        Next::Node(self.parts.nodes[usize::from(self.next_hop())])
    }

    /// The helper that is to be added next, by its place among the helpers of the plan.
    pub fn next_hop(&self) -> u8
        requires { HasNext self.now }
        ensures hop { result ≡ next_hop self.now }
        ensures within { result < helpers self.now }
    {
        hop_at(
            self.parts.lanes,
            self.parts.rows.len() as u8,
            self.parts.slice,
            self.parts.at,
        )
    }
}
