ghost use Rattle.std.specs.Prelude.{◌≤◌, IfOk, OnErr};
ghost use Rattle.ecp_coord.specs.Plans.{IsPlanned};
ghost use Rattle.ecp_requestor.specs.Fetching.{Fetches, GoesOn};

use crate::crew::Crew;
use crate::errand::Errand;
use crate::fetched::Fetched;
use crate::port::Port;
use ecp_book::{Book, Names};
use ecp_coord::Pass;
use ecp_plan::Plan;
use ecp_store::NoMemory;
use std::alloc::Global;
use std::sync::Wait;

/// Fetches the block of the pass's plan over the helpers of its nodes.
///
/// At most `window` slices are under way at a time. While none comes home it turns the helpers itself, one node after
/// another, so it needs no other thread. Where an attempt is given up it asks the crew for the plan anew, and goes on with
/// the plan that it gets, or ends with the reason for which there is none.
///
/// It may wait, and it waits for as long as no slice comes home and the plan stands. It takes memory for the block, for a
/// message of each slice that is under way at first, and anew for those of each later attempt. Want of memory is the only
/// error: the call is still open then, and the plan is dropped.
pub fn fetch<N: Names, C: Crew<N>, R: Wait>(
    rt: &R,
    alloc: Global,
    book: &Book<N>,
    crew: &C,
    pass: &mut Pass<N>,
    plan: Plan<N>,
    port: &mut Port<N>,
    window: u32,
) -> Result<Fetched<N>, NoMemory>
    requires planned { IsPlanned N.shape N.told pass.old plan }
    requires window { 1 ≤ window }
    ensures fetched { IfOk result (Fetches N.shape N.told pass.old plan pass.new) }
    ensures refused { OnErr result (GoesOn pass.old pass.new) }
{
    let mut errand = Errand::begin(alloc, book, plan, window, port.slot())?;
    let mut node = 0;
    for _ in rt.forever() {
        if errand.exchange(book, port) {
            if errand.is_complete() {
                return Ok(errand.whole());
            }
            continue;
        }
        if let Some(end) = errand.look(rt, alloc, book, crew, pass)? {
            return Ok(end);
        }
        crew.turn(rt, node);
        node = port.node_after(node);
    }
    unreachable!()
}
