//! The name of a service is picked, from its book, its sizes and its stores.
ghost use Rattle.std.specs.Prelude.{◌≡◌, ◌<◌, All, IfOk, map, vec_len};
ghost use Rattle.ecp_cluster.specs.Opening.{logs_for};
ghost use Rattle.ecp_command.specs.Input.Accepted.{session_view};
ghost use Rattle.ecp_service.specs.Over.{IsServedBy, starts_of};
ghost use Rattle.ecp_service.specs.Served.{answers_by};
ghost use Rattle.ecp_service.specs.Servable.{AreServable};
ghost use Rattle.ecp_service.specs.Sizing.{AreSizes};

use crate::serving::over::{Script, ScriptRun, serve_over};
use crate::serving::sizes::Sizes;
use ecp_book::Blank;
use ecp_helper::Gate;
use ecp_store::{NoMemory, Store};
use std::alloc::Global;
use std::marker::Brand;
use std::sync::Wait;
use std::thread::Threads;

/// Serves the calls of the sessions by a service of these sizes over these stores, as many as it has nodes.
pub(super) fn serve_named<S: Store + Drop + Send, G: Gate + Drop + Sync, R: Threads + Wait + Sync>(
    rt: &R,
    alloc: Global,
    sizes: Sizes,
    script: Script,
    stores: Vec<S>,
    gate: G,
) -> (Result<ScriptRun, NoMemory>, Vec<S>)
    requires sizes { AreSizes sizes (logs_for sizes.shape.nodes sizes.callers sizes.hands) }
    requires stores { vec_len stores ≡ sizes.shape.nodes }
    requires room { All (λ s. s.number < sizes.callers) script.sessions.items }
    requires servable { AreServable script.phases (map session_view script.sessions.items) }
    ensures served { IfOk result.0 (λ run. IsServedBy sizes.shape S.tells sizes.callers sizes.hands (map session_view script.sessions.items)
        S.faults (starts_of S.faults S.faultless stores.items) (answers_by run.replies.items) run.journal.lines result.1.items) }
    ensures back { vec_len result.1 ≡ vec_len stores }
{
    match Blank::new(alloc, sizes.logs()) {
        Ok(blank) => serve_over::<Brand, S, G, R>(rt, alloc, blank, sizes, script, stores, gate),
        Err(_) => (Err(NoMemory), stores),
    }
}
