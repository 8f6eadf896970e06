//! The calls of all callers are served, phase by phase.
ghost use Rattle.std.specs.Prelude.{◌≡◌, ℕ, ◌<◌, ◌≤◌, length, slice_index_or, All};
ghost use Rattle.ecp_service.specs.Callers.{AreAt, CanServe, IsReady, ServedPhase};
ghost use Rattle.ecp_service.specs.declared.serving.caller.Caller.{Caller};

use crate::serving::caller::Caller;
use crate::serving::raising::raise_all;
use ecp_book::Names;
use ecp_cluster::Service;
use ecp_helper::Gate;
use ecp_store::Store;
use std::alloc::Global;
use std::sync::Wait;
use std::thread::{self, Threads};

/// Serves the calls of the callers in so many phases, each caller in a thread of its own.
pub(super) fn serve_phases<
    N: Names + Send + Sync,
    S: Store + Drop + Send,
    G: Gate + Sync,
    R: Threads + Wait + Sync,
>(rt: &R, alloc: Global, service: &Service<N, S, G>, callers: &mut [Caller<N>], phases: u32)
    requires some { 1 ≤ length callers.old }
    requires ready { All IsReady callers.old }
    ensures { AreAt N.shape N.told phases callers.old callers.new }
{
    for phase in 0..phases {
        serve_phase(rt, alloc, service, callers, phase);
        raise_all(service, callers);
    }
}

// Serves the calls of one phase.
fn serve_phase<
    N: Names + Send + Sync,
    S: Store + Drop + Send,
    G: Gate + Sync,
    R: Threads + Wait + Sync,
>(rt: &R, alloc: Global, service: &Service<N, S, G>, callers: &mut [Caller<N>], phase: u32)
    requires some { 1 ≤ length callers.old }
    requires each { All CanServe callers.old }
    ensures each { length callers.new ≡ length callers.old }
    ensures served { (c : ℕ) (d : Caller N) → c < length callers.old →
        ServedPhase N.shape N.told phase (slice_index_or callers.old c d) (slice_index_or callers.new c d) }
{
    let threads = callers.len();
    thread::for_each_mut(
        rt,
        callers,
        threads,
        &|_, caller: &mut Caller<N>|
            requires { CanServe caller.now }
            ensures { ServedPhase N.shape N.told phase caller.entry.now caller.exit.now }
        { caller.serve(rt, alloc, service, phase) },
    );
}
