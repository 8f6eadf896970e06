//! The event that asks whether a plan still stands, and makes its next attempt where it does not.
ghost use Rattle.std.specs.Prelude.{◌≡◌, ◌+◌, ◌-◌, ◌<◌, ◌≤◌, ◌++◌, Bool, List, [], ◌∷◌, drop, length, map, vec_capacity};
ghost use Rattle.ecp_shape.specs.declared.limits.TheConstants.{MAX_ATTEMPTS};
ghost use Rattle.ecp_shape.specs.declared.shape.Shape.{Shape};
ghost use Rattle.ecp_entry.specs.declared.entry.Entry.{Entry};
ghost use Rattle.ecp_entry.specs.Told.{history_of};
ghost use Rattle.ecp_history.specs.table.Steps.{table_of};
ghost use Rattle.ecp_catalog.specs.Catalogs.{earlier, earliest, first_loss};
ghost use Rattle.ecp_catalog.specs.Outline.{IsOutline};
ghost use Rattle.ecp_sequencer.specs.Facts.{room_noted};
ghost use Rattle.ecp_sequencer.specs.Notes.{note};
ghost use Rattle.ecp_sequencer.specs.Sequencers.{Agrees};
ghost use Rattle.ecp_sequencer.specs.Steps.{Event};
ghost use Rattle.ecp_sequencer.specs.Passes.{IsWhole};
ghost use Rattle.ecp_coord.specs.Attempts.{IsNext};
ghost use Rattle.ecp_coord.specs.Helping.{CanHelp};
ghost use Rattle.ecp_coord.specs.Plans.{Did, IsPlanned, block_of, found_by_moving, found_by_replanning, planning_of};
ghost use Rattle.ecp_coord.specs.Voids.{positions_of};

use crate::asking::{can_be_had, live_count};
use crate::coord::Coord;
use crate::giving_up::end_with;
use crate::helping::help;
use crate::planning::{Planning, lanes};
use crate::{Pass, Replanned};
use ecp_book::{Book, Names};
use ecp_catalog::{Catalog, Stamps};
use ecp_history::BlockName;
use ecp_plan::{Plan, Voids};
use ecp_sequencer::Sequencer;
use ecp_shape::limits::MAX_ATTEMPTS;
use std::mem;

impl<N: Names> Coord<N> {
    /// Asks whether the pass's plan still stands, and makes it the plan of the next attempt where it does not.
    ///
    /// It stands, and is left as it is, where since its point no node of a helper was lost and no block of a helper given
    /// up. Else the first position of such an entry is kept with it, and the answer is [`Replanned::Unrecoverable`] where
    /// the block is lost and fewer than k rows of its stripe are live, [`Replanned::Unsteady`] where 16 positions are kept,
    /// and else [`Replanned::Planned`]. The first two end the plan's part of the call. Takes no memory.
    pub fn replan(&mut self, book: &Book<N>, pass: &mut Pass<N>, plan: &mut Plan<N>) -> Replanned
        requires { IsPlanned N.shape N.told pass.old plan.old }
        ensures answer { result ≡ found_by_replanning N.shape (history_of self.old.sequence.history) plan.old }
        ensures done { Did N.shape N.told self.old pass.old plan.old plan.new self.new pass.new result }
        ensures whole { IsWhole pass.new }
    {
        self.sequencer.meet(book, pass);
        self.sequencer.meet_front(book, &mut plan.front);
        let Some(at) = first_void(&self.catalog, plan) else {
            self.sequencer.renew(book, pass);
            return Replanned::StillGood;
        };
        let found = find(&self.catalog, plan);
        push(&mut plan.voids, at);
        let Some(act) = found.act(&plan.voids) else {
            next_attempt(
                book,
                &mut self.sequencer,
                &mut self.catalog,
                &self.stamps,
                pass,
                plan,
                self.cyclic,
            );
            self.stamps.raise(&plan.hops);
            return found;
        };
        let position = self.sequencer.len();
        end_with(
            &mut self.sequencer,
            book,
            pass,
            plan.part,
            position,
            act,
            &[],
        );
        found
    }
}

// The position of the first loss of a helper's node since the plan's point.
fn first_void<N: Names>(catalog: &Catalog<N>, plan: &Plan<N>) -> Option<u32>
    ensures { result ≡ earliest (map (λ h. first_loss catalog.now.nodes plan.now.point h.node) plan.now.hops.items) }
{
    let mut first = None;
    for hop in &plan.hops {
        let loss = catalog.first_loss_from(u32::from(hop.node), plan.point);
        first = earlier(first, loss);
    }
    first
}

// The earlier of two positions, as far as there are any.
fn earlier(a: Option<u32>, b: Option<u32>) -> Option<u32>
    ensures { result ≡ earlier a b }
{
    match (a, b) {
        (Some(a), Some(b)) => Some(a.min(b)),
        (Some(a), None) => Some(a),
        (None, b) => b,
    }
}

// What is found where a plan does not stand: by the table of which the catalog is the outline.
fn find<N: Names>(catalog: &Catalog<N>, plan: &Plan<N>) -> Replanned
    ensures { (shape : Shape) (told : Bool) (history : List Entry) → IsOutline shape told catalog.now history →
        result ≡ found_by_moving shape (table_of shape history) plan.now }
{
    let block = BlockName {
        stripe: plan.stripe,
        row: plan.row,
    };
    if !can_be_had(catalog, block) {
        Replanned::Unrecoverable(live_count(catalog, plan.stripe))
    } else if u32::from(plan.voids.len) + 1 == MAX_ATTEMPTS {
        Replanned::Unsteady
    } else {
        Replanned::Planned
    }
}

// Puts a position behind the others.
fn push(voids: &mut Voids, at: u32)
    requires { voids.old.len < MAX_ATTEMPTS }
    ensures len { voids.new.len ≡ voids.old.len + 1 }
    ensures kept { positions_of voids.new ≡ positions_of voids.old ++ at ∷ [] }
    ensures rest { drop voids.new.len voids.new.at ≡ drop (voids.old.len + 1) voids.old.at }
{
    voids.at[usize::from(voids.len)] = at;
    voids.len += 1;
}

// Makes and notes the next attempt of a repair, in place of the one that came to nothing.
fn next_attempt<N: Names>(
    book: &Book<N>,
    sequencer: &mut Sequencer<N>,
    catalog: &mut Catalog<N>,
    stamps: &Stamps,
    pass: &mut Pass<N>,
    plan: &mut Plan<N>,
    cyclic: bool,
)
    requires agree { Agrees sequencer.old pass.old }
    requires room { 1 ≤ room_noted pass.old.notes }
    requires can { CanHelp catalog.old (block_of plan.old) }
    requires fits { catalog.old.shape.k ≤ vec_capacity plan.old.hops }
    requires most { plan.old.attempt < MAX_ATTEMPTS }
    ensures event { Event N.shape N.told sequencer.old pass.old [] (note (length sequencer.old.history) (room_noted pass.old.notes - 1) (planning_of plan.new) ∷ []) sequencer.new pass.new }
    ensures calls { pass.new.calls ≡ pass.old.calls }
    ensures plan { IsNext catalog.old stamps.now.stamps cyclic sequencer.old.history plan.old plan.new }
    ensures kept { catalog.new ≡ catalog.old }
{
    sequencer.renew(book, pass);
    let block = BlockName {
        stripe: plan.stripe,
        row: plan.row,
    };
    help(book, catalog, stamps, block, &mut plan.hops);
    plan.lanes = lanes(cyclic, &plan.hops);
    plan.attempt += 1;
    plan.point = sequencer.len();
    book.end_tag(mem::replace(&mut plan.front, pass.front(book)));
    sequencer.note(book, pass, &Planning { plan });
}
