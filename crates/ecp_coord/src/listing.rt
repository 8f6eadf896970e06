//! The event that lists the blocks that a rebuild is to restore.
ghost use Rattle.std.specs.Prelude.{◌≡◌, Bool, IfOk, List, MatchOption, ⊤, ◌<◌, ◌^◌, length};
ghost use Rattle.ecp_shape.specs.declared.shape.Shape.{Shape};
ghost use Rattle.ecp_entry.specs.declared.deed.Deed.TheVariants.{Rebuild};
ghost use Rattle.ecp_entry.specs.declared.entry.Entry.{Entry};
ghost use Rattle.ecp_entry.specs.Told.{history_of};
ghost use Rattle.ecp_history.specs.Fronts.{told_table};
ghost use Rattle.ecp_history.specs.Legal.{MayFollow};
ghost use Rattle.ecp_history.specs.table.Steps.{table_of};
ghost use Rattle.ecp_catalog.specs.Outline.{IsOutline};
ghost use Rattle.ecp_sequencer.specs.Sequencers.{Agrees};
ghost use Rattle.ecp_sequencer.specs.Passes.{IsWhole};
ghost use Rattle.ecp_coord.specs.Calls.{IsFresh, IsOpen, ended};
ghost use Rattle.ecp_coord.specs.Listing.{AnswersList, Lists, act_hindering, hindrance};
ghost use Rattle.ecp_coord.specs.Refusals.{EndsWhere};

use crate::coord::Coord;
use crate::ending::end_call;
use crate::entering::enter_part;
use crate::{NoList, Pass};
use ecp_book::{Book, Names};
use ecp_catalog::Catalog;
use ecp_entry::{Act, Deed};
use ecp_history::Task;
use ecp_sequencer::Sequencer;
use std::alloc::Global;

impl<N: Names> Coord<N> {
    /// Lists the blocks that the pass's open call is to restore, of which nothing was noted yet: those that are lost and
    /// stand on node `from`, in rising order of stripe and then of row. Each is the task of a part of the call, numbered
    /// from 1.
    ///
    /// Part 0 of the call says how many there are, and the call stays open. A refusal ends it: [`NoList::NoSuchNode`] where
    /// there is no node `from`, or else none `to`, and [`NoList::TargetDown`] where node `to` is down. Want of memory leaves
    /// the call open; it comes only where nothing else hinders the call.
    pub fn list(
        &mut self,
        alloc: Global,
        book: &Book<N>,
        pass: &mut Pass<N>,
        from: u32,
        to: u32,
    ) -> Result<Vec<Task>, NoList>
        requires fresh { IsFresh pass.old (Rebuild from to) }
        ensures event { Lists N.shape N.told self.old.sequence pass.old from to result self.new.sequence pass.new }
        ensures answer { AnswersList N.shape (told_table N.shape self.old.sequence.history) from to result }
        ensures calls { pass.new.calls ≡ pass.old.calls }
        ensures rest { self.new ≡ record self.old { sequence = self.new.sequence } }
        ensures whole { IsWhole pass.new }
    {
        self.sequencer.meet(book, pass);
        let found = find(alloc, &self.catalog, from, to);
        let deed = Deed::Rebuild { from, to };
        match &found {
            Ok(tasks) => {
                let act = Act::Listed(tasks.len() as u32);
                enter_part(&mut self.sequencer, book, pass, deed, 0, act);
            }
            Err(why) => refuse(&mut self.sequencer, book, pass, deed, *why),
        }
        found
    }
}

// What is found: the answer by the table of which the catalog is the outline.
fn find<N: Names>(
    alloc: Global,
    catalog: &Catalog<N>,
    from: u32,
    to: u32,
) -> Result<Vec<Task>, NoList>
    ensures answer { (shape : Shape) (told : Bool) (history : List Entry) → IsOutline shape told catalog.now history →
        AnswersList shape (table_of shape history) from to result }
    ensures few { IfOk result (λ tasks. length tasks.items < 2 ^ 32) }
{
    match hinders(catalog, from, to) {
        Some(why) => Err(why),
        None => match catalog.lost_on(alloc, from) {
            Ok(tasks) => Ok(tasks),
            Err(_) => Err(NoList::NoMemory),
        },
    }
}

// What hinders a rebuild of the first node onto the second.
fn hinders<N: Names>(catalog: &Catalog<N>, from: u32, to: u32) -> Option<NoList>
    ensures { (shape : Shape) (told : Bool) (history : List Entry) → IsOutline shape told catalog.now history →
        result ≡ hindrance shape (table_of shape history) from to }
{
    let nodes = catalog.shape().nodes;
    if from >= nodes {
        Some(NoList::NoSuchNode(from))
    } else if to >= nodes {
        Some(NoList::NoSuchNode(to))
    } else if catalog.is_up(to) {
        None
    } else {
        Some(NoList::TargetDown(to))
    }
}

// Ends the open call with the act that says why, where there is one. Else it notes nothing.
fn refuse<N: Names>(
    sequencer: &mut Sequencer<N>,
    book: &Book<N>,
    pass: &mut Pass<N>,
    deed: Deed,
    why: NoList,
)
    requires agree { Agrees sequencer.old pass.old }
    requires open { IsOpen pass.old deed }
    requires follows { MatchOption (act_hindering why) ⊤ (λ what. MayFollow N.shape N.told (history_of sequencer.old.history) (ended pass.old deed (length sequencer.old.history) what)) }
    ensures event { EndsWhere N.shape N.told sequencer.old pass.old deed (act_hindering why) sequencer.new pass.new }
    ensures calls { pass.new.calls ≡ pass.old.calls }
{
    match why.act() {
        Some(act) => end_call(sequencer, book, pass, deed, act),
        None => sequencer.renew(book, pass),
    }
}
