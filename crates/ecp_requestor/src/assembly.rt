ghost use Rattle.std.specs.Prelude.{◌≡◌, ◌↔◌, IfOk, IfErr, IsOk, IsTrue};
ghost use Rattle.ecp_plan.specs.Plans.{IsSound};
ghost use Rattle.ecp_slice.specs.Messages.{IsFull};
ghost use Rattle.ecp_requestor.specs.Accepting.{answer_to, after, with_slice};
ghost use Rattle.ecp_requestor.specs.Assemblies.{begun, is_of, is_there, IsComplete, IsAssembly};
ghost use Rattle.ecp_requestor.specs.Blocks.{assembled, IsAssembled};
ghost use Rattle.ecp_requestor.specs.Renewing.{renewed, IsOfBlock};

use crate::accepted::Accepted;
use crate::assembled::Assembled;
use ecp_book::{Book, Names, Tag};
use ecp_plan::Plan;
use ecp_slice::SliceMsg;
use ecp_store::NoMemory;
use std::alloc::Global;
use std::marker::Model;
use std::mem;

/// The slices of one block, as they come home. Contracts see all that it says.
///
/// Each slice that is there came from one full message of this repair, and where payloads are told has the bytes of the
/// block of the plan's stripe and row in the table that the plan's front tells. So a complete assembly is that block,
/// whatever messages were given to it and in whatever order.
#[derive(Drop)]
pub struct Assembly<N: Names> {
    repair: u64,
    attempt: u32,
    stripe: u32,
    row: u8,
    block: u32,
    size: u32,
    front: Tag<N>,
    there: Vec<bool>,
    count: u32,
    room: Vec<u8>,
}

impl<N: Names> Model for Assembly<N> {
    ghost use Rattle.ecp_requestor.specs.Assemblies.{AssemblyState};
    ghost use Rattle.ecp_requestor.specs.AssemblyParts.{assembly_seen, IsKept};

    ghost Value = { AssemblyState };

    ghost view = { assembly_seen };

    ghost invariant = { IsKept N.shape N.told };
}

impl<N: Names> Assembly<N> {
    /// The assembly of a plan's block, with no slice. The plan stays as it is.
    ///
    /// This is its only call that takes memory: room for the block, and a place a slice. Want of memory is the only error.
    pub fn new(alloc: Global, book: &Book<N>, plan: &mut Plan<N>) -> Result<Assembly<N>, NoMemory>
        requires { IsSound N.shape N.told plan.old }
        ensures assembly { IfOk result (λ a. a ≡ begun plan.old) }
        ensures plan { plan.new ≡ plan.old }
    {
        let slices = plan.slices() as usize;
        Ok(Assembly {
            repair: plan.repair,
            attempt: plan.attempt,
            stripe: plan.stripe,
            row: plan.row,
            block: plan.block,
            size: plan.slice,
            there: vec![in alloc; false; slices]?,
            count: 0,
            room: vec![in alloc; 0; plan.block as usize]?,
            front: book.copy(&mut plan.front),
        })
    }

    /// Takes the slice of a full message, where the message belongs to this attempt and the slice is not there.
    ///
    /// Looks first whether the message is `Foreign`, then whether it is `Stale`, then whether it is a `Repeat`; each leaves
    /// the assembly as it was. `Taken` copies the payload into its place. The front stays that of the plan, since a block
    /// is the same in every later table. The message stays as it is in every case.
    pub fn accept(&mut self, book: &Book<N>, msg: &mut SliceMsg<N>) -> Accepted
        requires { IsFull msg.old }
        ensures answer { result ≡ answer_to self.old msg.old }
        ensures state { self.new ≡ after result self.old msg.old }
        ensures message { msg.new ≡ msg.old }
        ensures sound { IsAssembly N.shape N.told self.new }
    {
        let answer = self.answer(msg);
        match answer {
            Accepted::Taken => self.take(book, msg),
            Accepted::Stale(_) | Accepted::Foreign(_) | Accepted::Repeat(_) => {}
        }
        answer
    }

    /// Takes up the next attempt: forgets all slices, and belongs to the plan, which makes the same block and stays as it
    /// is. Messages of earlier attempts are `Stale` from then on. Takes no memory.
    pub fn renew(&mut self, book: &Book<N>, plan: &mut Plan<N>)
        requires sound { IsSound N.shape N.told plan.old }
        requires block { IsOfBlock plan.old self.old }
        ensures state { self.new ≡ renewed self.old plan.old }
        ensures plan { plan.new ≡ plan.old }
        ensures sound { IsAssembly N.shape N.told self.new }
    {
        let front = book.copy(&mut plan.front);
        book.end_tag(mem::replace(&mut self.front, front));
        self.attempt = plan.attempt;
        self.there.as_mut_slice().fill(false);
        self.count = 0;
    }

    /// The block, where every slice is there. Else gives the assembly back as it was.
    pub fn complete(self) -> Result<Assembled<N>, Assembly<N>>
        ensures cause { IsOk result ↔ IsComplete self }
        ensures block { IfOk result (λ b. b ≡ assembled self) }
        ensures right { IfOk result (IsAssembled N.shape N.told) }
        ensures back { IfErr result (λ a. a ≡ self) }
        ensures sound { IfErr result (IsAssembly N.shape N.told) }
    {
        if !self.is_complete() {
            return Err(self);
        }
        let Assembly {
            stripe,
            row,
            front,
            room: bytes,
            ..
        } = self;
        Ok(Assembled {
            stripe,
            row,
            front,
            bytes,
        })
    }

    /// Whether every slice is there.
    pub(crate) fn is_complete(&self) -> bool
        ensures complete { IsTrue result ↔ IsComplete self.now }
        ensures sound { IsAssembly N.shape N.told self.now }
    {
        self.count as usize == self.there.len()
    }

    // What becomes of a full message.
    fn answer(&self, msg: &SliceMsg<N>) -> Accepted
        ensures answer { result ≡ answer_to self.now msg.now }
        ensures sound { IsAssembly N.shape N.told self.now }
    {
        if !self.is_of(msg) {
            return Accepted::Foreign(self.repair);
        }
        if msg.attempt() != self.attempt {
            return Accepted::Stale(self.attempt);
        }
        if self.is_there(msg.slice()) {
            return Accepted::Repeat(msg.slice());
        }
        Accepted::Taken
    }

    // Whether the message is of the same repair, stripe and row, and of as long a block and slice.
    fn is_of(&self, msg: &SliceMsg<N>) -> bool
        ensures { result ≡ is_of self.now msg.now }
    {
        msg.repair() == self.repair
            && msg.stripe() == self.stripe
            && msg.row() == self.row
            && msg.block() == self.block
            && msg.size() == self.size
    }

    // Whether a slice is there.
    fn is_there(&self, slice: u32) -> bool
        ensures { result ≡ is_there self.now slice }
    {
        self.there.get(slice as usize).is_some_and(|there| *there)
    }

    // Puts the payload of a message into its place. The fronts meet, so both tables have the same block.
    fn take(&mut self, book: &Book<N>, msg: &mut SliceMsg<N>)
        requires full { IsFull msg.old }
        requires taken { answer_to self.old msg.old ≡ Accepted.Taken }
        ensures state { self.new ≡ with_slice self.old msg.old }
        ensures message { msg.new ≡ msg.old }
        ensures sound { IsAssembly N.shape N.told self.new }
    {
        let mut front = msg.front(book);
        book.meet_tags(&mut self.front, &mut front);
        let start = msg.off() as usize;
        let payload = msg.payload();
        self.room[start..start + payload.len()].copy_from_slice(payload);
        self.there[msg.slice() as usize] = true;
        self.count += 1;
    }
}
