//! The call by which a file is read whole.
ghost use Rattle.std.specs.Prelude.{◌≡◌, ℕ, ◌≤◌, List, [], false, length, IfOk, OnErr};
ghost use Rattle.ecp_shape.specs.declared.limits.TheConstants.{MAX_NAME};
ghost use Rattle.ecp_entry.specs.declared.deed.Deed.{Deed};
ghost use Rattle.ecp_entry.specs.declared.deed.Deed.TheVariants.{Cat};
ghost use Rattle.ecp_sequencer.specs.Facts.{room_noted};
ghost use Rattle.ecp_sequencer.specs.Passes.{IsWhole};
ghost use Rattle.ecp_coord.specs.Calls.{IsFresh, IsOpen};
ghost use Rattle.ecp_coord.specs.Closing.{MayClose};
ghost use Rattle.ecp_cluster.specs.Concluded.{Concludes};
ghost use Rattle.ecp_cluster.specs.Reading.{IsReading, OpensFrom, ReadsOn, StopsShort};
ghost use Rattle.ecp_cluster.specs.Whole.{ReadWhole, StoppedShort};

use crate::answer::Answer;
use crate::file_sum::FileSum;
use crate::service::Service;
use crate::{NoMemory, Pass};
use ecp_book::Names;
use ecp_coord::{Ask, Opened};
use ecp_entry::{Act, Deed, Name};
use ecp_helper::Gate;
use ecp_store::{Block, Store};
use std::sync::Wait;

impl<N: Names, S: Store + Drop, G: Gate> Service<N, S, G> {
    /// Reads the file of this name whole. The answer has the act of the call's entry: `Whole`, with the SHA-256 of the file,
    /// `Broken` with the number of the first block that could not be read, or `NoSuchFile`. It has no bytes, but the length
    /// of the file, and how the part ended that broke the reading off.
    ///
    /// The file is opened, and each of its blocks is had in turn as by [`read`](Service::read), as a part of the call. The
    /// bytes are digested as they come: never more than one block of the file is in memory. The first block without data
    /// ends the call. Want of memory is the only error: then the call has no end, and its parts until then stand.
    pub fn cat<R: Wait>(&self, rt: &R, pass: &mut Pass<N>, name: &str) -> Result<Answer, NoMemory>
        requires some { 1 ≤ length name.now }
        requires short { length name.now ≤ MAX_NAME }
        requires whole { IsWhole pass.old }
        ensures ok { IfOk result (λ a. ReadWhole N.shape N.told pass.old name.now a pass.new) }
        ensures err { OnErr result (StoppedShort pass.old (Cat name.now) pass.new) }
        ensures whole { IsWhole pass.new }
    {
        let deed = Deed::Cat {
            name: Name::new(name),
        };
        self.begin(rt, pass, deed)?;
        match self.open_file(rt, pass, name) {
            Opened::Opened { len, count, .. } => self.read_blocks(rt, pass, len, count),
            Opened::NoSuchFile => Ok(self.only(Act::NoSuchFile)),
        }
    }

    // The file is opened, under the coordinator's lock.
    fn open_file<R: Wait>(&self, rt: &R, pass: &mut Pass<N>, name: &str) -> Opened
        requires named { (1 ≤ length name.now) × (length name.now ≤ MAX_NAME) }
        requires fresh { IsFresh pass.old (Cat name.now) }
        requires room { 3 ≤ room_noted pass.old.notes }
        ensures { OpensFrom N.shape N.told pass.old name.now result pass.new }
    {
        self.coord.lock(rt).open_cat(&self.book, pass, name)
    }

    // The blocks of a file of this length, which was opened, and the end of the call.
    fn read_blocks<R: Wait>(
        &self,
        rt: &R,
        pass: &mut Pass<N>,
        len: u32,
        count: u32,
    ) -> Result<Answer, NoMemory>
        requires { (name : List ℕ) × IsReading N.shape pass.old name count 0 }
        ensures ok { (name : List ℕ) → IsReading N.shape pass.old name count 0 → IfOk result (λ a. ReadsOn N.shape N.told pass.old name len count a pass.new) }
        ensures err { (name : List ℕ) → IsReading N.shape pass.old name count 0 → OnErr result (StopsShort pass.old name pass.new) }
    {
        let mut sum = FileSum::new(len);
        for index in 0..count {
            let block = self.read_on(rt, pass, Ask::CatPart { index })?;
            let Act::Data = block.act else {
                let broken = Act::Broken(index);
                return Ok(self.close_file(rt, pass, broken, len, block.act, [0; 32]));
            };
            sum.add(block.bytes.bytes());
        }
        Ok(self.close_file(rt, pass, Act::Whole, len, Act::Whole, sum.finish()))
    }

    // The call ends with this act, which its parts give, under the coordinator's lock.
    fn close_file<R: Wait>(
        &self,
        rt: &R,
        pass: &mut Pass<N>,
        act: Act,
        len: u32,
        cause: Act,
        digest: [u8; 32],
    ) -> Answer
        requires { MayClose pass.old act }
        ensures ends { (asked : Deed) → IsOpen pass.old asked → Concludes N.shape N.told pass.old asked act [] pass.new }
        ensures act { result.act ≡ act }
        ensures file { (result.len ≡ len) × (result.cause ≡ cause) × (result.digest ≡ digest) }
        ensures none { (result.bytes ≡ []) × (result.by_digest ≡ false) }
    {
        self.coord.lock(rt).close_call(&self.book, pass, act);
        Answer {
            act,
            bytes: Block::new(Vec::new(self.alloc)),
            by_digest: false,
            digest,
            len,
            cause,
        }
    }
}
