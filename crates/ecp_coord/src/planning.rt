//! The first attempt of a repair, and how an attempt is noted.
ghost use Rattle.std.specs.Prelude.{◌≡◌, ◌≤◌, [], ◌∷◌, IfOk, OnErr, OnOk, length};
ghost use Rattle.ecp_book.specs.Logs.{history_log};
ghost use Rattle.ecp_sequencer.specs.declared.limits.TheConstants.{ROOM};
ghost use Rattle.ecp_sequencer.specs.Notes.{note};
ghost use Rattle.ecp_sequencer.specs.Sequencers.{Agrees};
ghost use Rattle.ecp_sequencer.specs.Steps.{Event};
ghost use Rattle.ecp_coord.specs.Attempts.{IsFirst, lanes_for};
ghost use Rattle.ecp_coord.specs.Helping.{CanHelp};
ghost use Rattle.ecp_coord.specs.Plans.{planning_of};

use crate::helping::help;
use crate::{NoMemory, Pass};
use ecp_book::{Book, Entered, Names, Tag};
use ecp_catalog::{Catalog, Stamps};
use ecp_history::{BlockName, Part};
use ecp_plan::{Hop, Plan, Voids};
use ecp_sequencer::Sequencer;
use std::alloc::Global;

/// That a hand has this plan.
#[derive(Drop)]
pub(crate) struct Planning<'a, N: Names> {
    pub(crate) plan: &'a Plan<N>,
}

impl<'a, N: Names> Entered for Planning<'a, N> {
    ghost use Rattle.ecp_coord.specs.Plans.{planning_of};

    ghost item = { λ p. planning_of p.plan.now };
}

/// What a new repair has of its call and of the coordinator.
#[derive(Clone, Copy)]
pub(crate) struct Making {
    pub(crate) repair: u64,
    pub(crate) part: Part,
    pub(crate) block: BlockName,
    pub(crate) slice: u32,
    pub(crate) cyclic: bool,
}

/// Makes and notes the first attempt of a new repair.
///
/// Want of memory is the only error, also where there is no greater number of a repair. It notes nothing.
pub(crate) fn first_attempt<N: Names>(
    alloc: Global,
    book: &Book<N>,
    sequencer: &mut Sequencer<N>,
    catalog: &mut Catalog<N>,
    stamps: &Stamps,
    pass: &mut Pass<N>,
    making: Making,
) -> Result<Plan<N>, NoMemory>
    requires agree { Agrees sequencer.old pass.old }
    requires can { CanHelp catalog.old making.block }
    ensures ok { IfOk result (λ plan. Event N.shape N.told sequencer.old pass.old [] (note (length sequencer.old.history) ROOM (planning_of plan) ∷ []) sequencer.new pass.new) }
    ensures err { OnErr result (Event N.shape N.told sequencer.old pass.old [] [] sequencer.new pass.new) }
    ensures plan { IfOk result (λ plan. IsFirst catalog.old stamps.now.stamps making sequencer.old.history plan) }
    ensures calls { pass.new.calls ≡ pass.old.calls }
    ensures kept { catalog.new ≡ catalog.old }
{
    sequencer.renew(book, pass);
    let plan = first_plan(alloc, book, catalog, stamps, making, pass.front(book))?;
    sequencer.note_taking(book, pass, &Planning { plan: &plan })?;
    Ok(plan)
}

// Makes it.
fn first_plan<N: Names>(
    alloc: Global,
    book: &Book<N>,
    catalog: &mut Catalog<N>,
    stamps: &Stamps,
    making: Making,
    front: Tag<N>,
) -> Result<Plan<N>, NoMemory>
    requires front { front.log ≡ history_log }
    requires can { CanHelp catalog.old making.block }
    ensures plan { IfOk result (λ plan. IsFirst catalog.old stamps.now.stamps making front.items plan) }
    ensures kept { catalog.new ≡ catalog.old }
{
    if making.repair == u64::MAX {
        return Err(NoMemory);
    }
    let shape = catalog.shape();
    let mut hops = Vec::with_capacity(alloc, shape.k as usize)?;
    help(book, catalog, stamps, making.block, &mut hops);
    Ok(Plan {
        repair: making.repair,
        attempt: 1,
        part: making.part,
        stripe: making.block.stripe,
        row: making.block.row,
        lanes: lanes(making.cyclic, &hops),
        hops,
        block: shape.block,
        slice: making.slice,
        point: front.len(),
        front,
        to: None,
        voids: Voids {
            len: 0,
            at: [0; 16],
        },
    })
}

/// How many lanes a plan with these helpers has.
pub(crate) fn lanes<N: Names>(cyclic: bool, hops: &[Hop<N>]) -> u8
    requires { length hops.now ≤ 16 }
    ensures { result ≡ lanes_for cyclic (length hops.now) }
{
    if cyclic { hops.len() as u8 } else { 1 }
}
