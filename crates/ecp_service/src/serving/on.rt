//! The sessions of a script are served over some of the stores that a run was given.
ghost use Rattle.std.specs.Prelude.{◌≡◌, ◌<◌, ◌≤◌, All, IfOk, drop, map, vec_len};
ghost use Rattle.ecp_command.specs.Input.Accepted.{session_view};
ghost use Rattle.ecp_command.specs.Input.Settings.{IsInRange};
ghost use Rattle.ecp_service.specs.Over.{IsServedOn};
ghost use Rattle.ecp_service.specs.Served.{answers_by};
ghost use Rattle.ecp_service.specs.Servable.{AreServable};
ghost use Rattle.ecp_shape.specs.declared.limits.TheConstants.{MAX_SESSIONS};

use crate::serving::naming::serve_named;
use crate::serving::over::{Script, ScriptRun};
use crate::serving::sizes::sizes_of;
use crate::serving::stores::{join, part};
use ecp_command::Head;
use ecp_helper::Gate;
use ecp_store::{NoMemory, Store};
use std::alloc::Global;
use std::sync::Wait;
use std::thread::Threads;

/// Serves the calls of the sessions over the first of the stores, as many as the head has nodes, with so many callers. All
/// stores come back, in their order. Want of memory is the only error.
pub(super) fn serve_on<S: Store + Drop + Send, G: Gate + Drop + Sync, R: Threads + Wait + Sync>(
    rt: &R,
    alloc: Global,
    head: &Head,
    callers: u32,
    script: Script,
    stores: Vec<S>,
    gate: G,
) -> (Result<ScriptRun, NoMemory>, Vec<S>)
    requires head { IsInRange head.now }
    requires callers { (1 ≤ callers) × (callers ≤ MAX_SESSIONS) }
    requires enough { head.now.nodes ≤ vec_len stores }
    requires room { All (λ s. s.number < callers) script.sessions.items }
    requires servable { AreServable script.phases (map session_view script.sessions.items) }
    ensures served { IfOk result.0 (λ run. IsServedOn head.now S.tells S.faults S.faultless callers (map session_view script.sessions.items)
        stores.items (answers_by run.replies.items) run.journal.lines result.1.items) }
    ensures back { vec_len result.1 ≡ vec_len stores }
    ensures unused { drop head.now.nodes result.1.items ≡ drop head.now.nodes stores.items }
{
    let Ok(all) = Vec::with_capacity(alloc, stores.len()) else {
        return (Err(NoMemory), stores);
    };
    let sizes = sizes_of(head, callers);
    match part(stores, head.nodes as usize) {
        Ok((used, rest)) => {
            let (run, used) = serve_named(rt, alloc, sizes, script, used, gate);
            (run, join(all, used, rest))
        }
        Err(stores) => (Err(NoMemory), stores),
    }
}
