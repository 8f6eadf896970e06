//! The event that plans how the block is had that a call asks for.
ghost use Rattle.std.specs.Prelude.{◌≡◌, ◌≤◌, Bool, IfErr, IfOk, List, MatchOption, ℕ, [], length, ⊤};
ghost use Rattle.ecp_shape.specs.declared.limits.TheConstants.{MAX_ROWS};
ghost use Rattle.ecp_shape.specs.declared.shape.Shape.{Shape};
ghost use Rattle.ecp_entry.specs.declared.deed.Deed.{Deed};
ghost use Rattle.ecp_entry.specs.declared.entry.Entry.{Entry};
ghost use Rattle.ecp_entry.specs.Told.{history_of};
ghost use Rattle.ecp_history.specs.Fronts.{told_table};
ghost use Rattle.ecp_history.specs.Legal.{MayFollow};
ghost use Rattle.ecp_history.specs.table.Steps.{table_of};
ghost use Rattle.ecp_history.specs.table.Tables.{live_rows};
ghost use Rattle.ecp_catalog.specs.Outline.{IsOutline};
ghost use Rattle.ecp_sequencer.specs.Sequencers.{Agrees};
ghost use Rattle.ecp_sequencer.specs.Steps.{Event};
ghost use Rattle.ecp_sequencer.specs.Passes.{IsWhole};
ghost use Rattle.ecp_coord.specs.Calls.{EndsAny, HasOpen, IsOpen, closing};
ghost use Rattle.ecp_coord.specs.Plans.{Answers, CanPlan, IsOfFile, IsSought, Plans, RefusesPlan, index_of, is_recoverable, part_for, refusal_of, sought, sought_block};

use crate::coord::Coord;
use crate::giving_up::end_with;
use crate::planning::{Making, first_attempt};
use crate::{Ask, NoMemory, NoPlan, Pass};
use ecp_book::{Book, Names};
use ecp_catalog::Catalog;
use ecp_entry::{Deed, Name, Part};
use ecp_history::BlockName;
use ecp_plan::Plan;
use ecp_sequencer::Sequencer;
use std::alloc::Global;

impl<N: Names> Coord<N> {
    /// Plans how the block is had that the pass's open call asks for: attempt 1 of a new repair. Of a read or a sum nothing
    /// was noted yet, and the name has 1 to 64 bytes. Of a `cat` the parts before this one have their data, and its file has
    /// such a block.
    ///
    /// Where the block is live the plan is direct: its own row is the one helper. Else k live rows help, those whose nodes
    /// helped longest ago. A refusal ends the call, or the part of a `cat`: [`NoPlan::NoSuchFile`] where no file has the
    /// name, [`NoPlan::NoSuchBlock`] where the file has too few blocks, and [`NoPlan::Unrecoverable`] where the block is lost
    /// and fewer than k rows of its stripe are live; of a part of a `cat` only the last comes. Want of memory leaves the call
    /// open. Room for later attempts, and for the end of the call, is taken here.
    pub fn plan(
        &mut self,
        alloc: Global,
        book: &Book<N>,
        pass: &mut Pass<N>,
        ask: Ask<'_>,
    ) -> Result<Plan<N>, NoPlan>
        requires { CanPlan N.shape pass.old ask }
        ensures ok { IfOk result (λ plan. Plans N.shape N.told self.old pass.old plan self.new pass.new) }
        ensures part { IfOk result (λ plan. plan.part ≡ part_for ask.entry) }
        ensures err { IfErr result (λ why. RefusesPlan N.shape N.told self.old pass.old (part_for ask.entry) (refusal_of why) self.new pass.new) }
        ensures answer { (file : List ℕ) → IsOfFile pass.old ask.entry file →
            Answers (sought N.shape (told_table N.shape self.old.sequence.history) file (index_of ask.entry)) result }
        ensures whole { IsWhole pass.new }
    {
        match ask {
            Ask::Read { name, index } | Ask::Sum { name, index } => {
                let name = Name::new(name);
                self.plan_block(alloc, book, pass, Part::End, &name, index)
            }
            Ask::CatPart { index } => {
                let deed = pass.deed();
                let Some(Deed::Cat { name }) = &deed else {
                    return Err(NoPlan::NoSuchFile);
                };
                self.plan_block(alloc, book, pass, Part::Part(index + 1), name, index)
            }
        }
    }

    // Plans how this block of a file is had, for a part of the pass's open call.
    fn plan_block(
        &mut self,
        alloc: Global,
        book: &Book<N>,
        pass: &mut Pass<N>,
        part: Part,
        name: &Name,
        index: u32,
    ) -> Result<Plan<N>, NoPlan>
        requires { IsSought N.shape pass.old part name.now index }
        ensures ok { IfOk result (λ plan. Plans N.shape N.told self.old pass.old plan self.new pass.new) }
        ensures part { IfOk result (λ plan. plan.part ≡ part) }
        ensures err { IfErr result (λ why. RefusesPlan N.shape N.told self.old pass.old part (refusal_of why) self.new pass.new) }
        ensures answer { Answers (sought N.shape (told_table N.shape self.old.sequence.history) name.now index) result }
    {
        self.sequencer.meet(book, pass);
        let block = match seek(&self.catalog, name, index) {
            Ok(block) => block,
            Err(why) => {
                refuse(&mut self.sequencer, book, pass, part, why);
                return Err(why);
            }
        };
        let making = Making {
            repair: self.repairs,
            part,
            block,
            slice: self.slice,
            cyclic: self.cyclic,
        };
        let made = first_attempt(
            alloc,
            book,
            &mut self.sequencer,
            &mut self.catalog,
            &self.stamps,
            pass,
            making,
        );
        match made {
            Ok(plan) => {
                self.stamps.raise(&plan.hops);
                self.repairs += 1;
                Ok(plan)
            }
            Err(NoMemory) => Err(NoPlan::NoMemory),
        }
    }
}

// The block that is asked for, or why there is none: by the table of which the catalog is the outline.
fn seek<N: Names>(catalog: &Catalog<N>, name: &Name, index: u32) -> Result<BlockName, NoPlan>
    ensures { (shape : Shape) (told : Bool) (history : List Entry) → IsOutline shape told catalog.now history →
        result ≡ sought shape (table_of shape history) name.now index }
{
    let Some(file) = catalog.file(name) else {
        return Err(NoPlan::NoSuchFile);
    };
    let Some(block) = catalog.block_of(name, index) else {
        return Err(NoPlan::NoSuchBlock(catalog.block_count(&file)));
    };
    seek_block(catalog, block)
}

// A block that can be had, or how few rows of its stripe are live.
fn seek_block<N: Names>(catalog: &Catalog<N>, block: BlockName) -> Result<BlockName, NoPlan>
    ensures { (shape : Shape) (told : Bool) (history : List Entry) → IsOutline shape told catalog.now history →
        result ≡ sought_block shape (table_of shape history) block }
{
    if can_be_had(catalog, block) {
        Ok(block)
    } else {
        Err(NoPlan::Unrecoverable(live_count(catalog, block.stripe)))
    }
}

/// Whether a block can be had: it is live, or at least k rows of its stripe are.
pub(crate) fn can_be_had<N: Names>(catalog: &Catalog<N>, block: BlockName) -> bool
    ensures { (shape : Shape) (told : Bool) (history : List Entry) → IsOutline shape told catalog.now history →
        result ≡ is_recoverable shape (table_of shape history) block }
{
    catalog.is_live(block.stripe, block.row)
        || catalog.shape().k <= live_count(catalog, block.stripe)
}

/// How many rows of a stripe are live.
pub(crate) fn live_count<N: Names>(catalog: &Catalog<N>, stripe: u32) -> u32
    ensures counted { (shape : Shape) (told : Bool) (history : List Entry) → IsOutline shape told catalog.now history →
        result ≡ live_rows (table_of shape history) stripe }
    ensures few { result ≤ MAX_ROWS }
{
    catalog.live_rows(stripe).as_slice().len() as u32
}

// Ends a part of the open call with the reason why it has no plan. Want of memory leaves it open.
fn refuse<N: Names>(
    sequencer: &mut Sequencer<N>,
    book: &Book<N>,
    pass: &mut Pass<N>,
    part: Part,
    why: NoPlan,
)
    requires agree { Agrees sequencer.old pass.old }
    requires has_open { HasOpen pass.old }
    requires follows { (asked : Deed) → IsOpen pass.old asked → MatchOption (refusal_of why) ⊤ (λ what.
        MayFollow N.shape N.told (history_of sequencer.old.history) (closing pass.old asked part (length sequencer.old.history) what [])) }
    ensures event { MatchOption (refusal_of why) (Event N.shape N.told sequencer.old pass.old [] [] sequencer.new pass.new) (λ what. EndsAny N.shape N.told sequencer.old pass.old part what sequencer.new pass.new) }
    ensures calls { pass.new.calls ≡ pass.old.calls }
{
    match why.act() {
        Some(act) => {
            let position = sequencer.len();
            end_with(sequencer, book, pass, part, position, act, &[]);
        }
        None => sequencer.renew(book, pass),
    }
}
