//! A service is opened over stores for the sessions of a script, serves their calls, and is closed.
ghost use Rattle.std.specs.Prelude.{◌≡◌, ◌<◌, ◌≤◌, All, IfOk, IsTrue, map, vec_len};
ghost use Rattle.ecp_book.specs.Logs.{logs_of};
ghost use Rattle.ecp_cluster.specs.Opening.{AreStarts};
ghost use Rattle.ecp_command.specs.Input.Accepted.{session_view};
ghost use Rattle.ecp_sequencer.specs.Passes.{first_passes};
ghost use Rattle.ecp_service.specs.Over.{IsServedBy};
ghost use Rattle.ecp_service.specs.Served.{EachServed, answers_by};
ghost use Rattle.ecp_service.specs.Servable.{AreServable};
ghost use Rattle.ecp_service.specs.Sizing.{AreSizes};

use crate::serving::replies::Replies;
use crate::serving::seating::{parted, seated};
use crate::serving::sizes::Sizes;
use crate::serving::workers::serve_with_workers;
use ecp_book::{Blank, Names};
use ecp_cluster::{Closed, Pass, Service};
use ecp_command::Session;
use ecp_helper::Gate;
use ecp_history::Journal;
use ecp_store::{NoMemory, Store};
use std::alloc::Global;
use std::sync::Wait;
use std::thread::Threads;

/// The sessions of a script, the phases of their calls, and the threads that turn the helpers meanwhile.
#[derive(Drop)]
pub(super) struct Script {
    pub sessions: Vec<Session>,
    pub phases: u32,
    pub workers: u32,
}

/// What became of a script: the answers to the calls of each caller, and the journal of the service.
#[derive(Drop)]
pub(crate) struct ScriptRun {
    pub replies: Vec<Replies>,
    pub journal: Journal,
}

/// Serves the calls of the sessions by a service of these sizes over these stores, for which N stands. Want of memory is the
/// only error. The stores come back in their order.
pub(super) fn serve_over<
    N: Names + Send + Sync,
    S: Store + Drop + Send,
    G: Gate + Drop + Sync,
    R: Threads + Wait + Sync,
>(
    rt: &R,
    alloc: Global,
    blank: Blank,
    sizes: Sizes,
    script: Script,
    stores: Vec<S>,
    gate: G,
) -> (Result<ScriptRun, NoMemory>, Vec<S>)
    requires book { blank ≡ N.book }
    requires named { (sizes.shape ≡ N.shape) × (sizes.callers ≡ N.callers) × (sizes.hands ≡ N.spare_hands) }
    requires sizes { AreSizes sizes (logs_of blank) }
    requires told { IsTrue N.told → IsTrue S.tells }
    requires stores { AreStarts S.faults S.faultless N.stores sizes.shape.nodes stores.items }
    requires room { All (λ s. s.number < N.callers) script.sessions.items }
    requires servable { AreServable script.phases (map session_view script.sessions.items) }
    ensures served { IfOk result.0 (λ run. IsServedBy N.shape N.told N.callers N.spare_hands (map session_view script.sessions.items)
        S.faults N.stores (answers_by run.replies.items) run.journal.lines result.1.items) }
    ensures back { vec_len result.1 ≡ vec_len stores }
{
    let Sizes {
        shape,
        slice,
        cyclic,
        window,
        hands,
        callers,
    } = sizes;
    match Service::<N, S, G>::open(
        alloc, blank, shape, slice, cyclic, window, hands, callers, stores, gate,
    ) {
        Ok((service, passes)) => {
            serve_then_close(rt, alloc, service, passes, script, shape.nodes)
        }
        Err((NoMemory, stores)) => (Err(NoMemory), stores),
    }
}

/// Serves the calls of each session by the pass of its caller, and closes the service.
fn serve_then_close<
    N: Names + Send + Sync,
    S: Store + Drop + Send,
    G: Gate + Drop + Sync,
    R: Threads + Wait + Sync,
>(
    rt: &R,
    alloc: Global,
    service: Service<N, S, G>,
    passes: Vec<Pass<N>>,
    script: Script,
    nodes: u32,
) -> (Result<ScriptRun, NoMemory>, Vec<S>)
    requires passes { passes.items ≡ first_passes N.spare_hands N.callers }
    requires some { 1 ≤ N.callers }
    requires room { All (λ s. s.number < N.callers) script.sessions.items }
    requires servable { AreServable script.phases (map session_view script.sessions.items) }
    requires nodes { nodes ≡ N.shape.nodes }
    ensures served { IfOk result.0 (λ run. IsServedBy N.shape N.told N.callers N.spare_hands (map session_view script.sessions.items)
        S.faults N.stores (answers_by run.replies.items) run.journal.lines result.1.items) }
    ensures back { vec_len result.1 ≡ N.shape.nodes }
{
    match served(rt, alloc, &service, passes, script, nodes) {
        Ok((passes, replies)) => {
            let Closed { journal, stores } = service.close(rt, passes);
            (Ok(ScriptRun { replies, journal }), stores)
        }
        Err(NoMemory) => {
            let Closed { journal: _, stores } = service.close(rt, Vec::new(alloc));
            (Err(NoMemory), stores)
        }
    }
}

/// Serves the calls of each session by the pass of its caller. Gives the passes, and the answers of each caller.
fn served<N: Names + Send + Sync, S: Store + Drop + Send, G: Gate + Sync, R: Threads + Wait + Sync>(
    rt: &R,
    alloc: Global,
    service: &Service<N, S, G>,
    passes: Vec<Pass<N>>,
    script: Script,
    nodes: u32,
) -> Result<(Vec<Pass<N>>, Vec<Replies>), NoMemory>
    requires passes { passes.items ≡ first_passes N.spare_hands N.callers }
    requires some { 1 ≤ N.callers }
    requires room { All (λ s. s.number < N.callers) script.sessions.items }
    requires servable { AreServable script.phases (map session_view script.sessions.items) }
    requires nodes { nodes ≡ N.shape.nodes }
    ensures { IfOk result (λ r. EachServed N.shape N.told N.spare_hands N.callers (map session_view script.sessions.items) (answers_by r.1.items) r.0.items) }
{
    let Script {
        sessions,
        phases,
        workers,
    } = script;
    let callers = seated(alloc, passes, sessions)?;
    let callers = serve_with_workers(rt, alloc, service, callers, phases, workers, nodes);
    parted(alloc, callers)
}
