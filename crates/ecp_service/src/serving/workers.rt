//! The threads that turn the helpers while the calls are served.
ghost use Rattle.std.specs.Prelude.{◌≤◌, length, All};
ghost use Rattle.ecp_service.specs.Callers.{AreAt, IsReady};

use crate::serving::caller::Caller;
use crate::serving::phases::serve_phases;
use crossbeam_utils::Backoff;
use ecp_book::Names;
use ecp_cluster::{Service, Turn};
use ecp_helper::Gate;
use ecp_store::Store;
use std::alloc::Global;
use std::sync::Wait;
use std::sync::atomic::{AtomicBool, Ordering};
use std::thread::{self, Promise, Threads};

/// What a worker leaves: nothing is said of it.
#[derive(Drop)]
struct Worked;

impl Promise<()> for Worked {
    ghost use Rattle.std.specs.Prelude.{⊤};

    ghost kept_by = { λ _ _. ⊤ };
}

/// Serves the calls of the callers in so many phases, while so many threads turn the helpers of the nodes. Where a thread cannot
/// be started there is one fewer: each caller turns the helpers itself while it waits.
pub(super) fn serve_with_workers<
    N: Names + Send + Sync,
    S: Store + Drop + Send,
    G: Gate + Sync,
    R: Threads + Wait + Sync,
>(
    rt: &R,
    alloc: Global,
    service: &Service<N, S, G>,
    callers: Vec<Caller<N>>,
    phases: u32,
    workers: u32,
    nodes: u32,
) -> Vec<Caller<N>>
    requires some { 1 ≤ length callers.items }
    requires ready { All IsReady callers.items }
    requires nodes { nodes ≤ N.shape.nodes }
    ensures { AreAt N.shape N.told phases callers.items result.items }
{
    let done = AtomicBool::new(false);
    let ended = &done;
    thread::scope(
        thread::scope_env(),
        rt,
        |scope| -> Vec<Caller<N>>
            requires { (1 ≤ length callers.items) × All IsReady callers.items × (nodes ≤ N.shape.nodes) }
            ensures { AreAt N.shape N.told phases callers.items result.items }
        {
            for _ in 0..workers {
                let _ = scope.spawn_with(
                    Worked,
                    move ||
                        requires { nodes ≤ N.shape.nodes }
                    { turn_round(rt, service, nodes, ended) },
                );
            }
            serve_all(rt, alloc, service, callers, phases, ended)
        },
    )
}

// Serves the calls of the callers in so many phases, and says when all are served.
fn serve_all<
    N: Names + Send + Sync,
    S: Store + Drop + Send,
    G: Gate + Sync,
    R: Threads + Wait + Sync,
>(
    rt: &R,
    alloc: Global,
    service: &Service<N, S, G>,
    mut callers: Vec<Caller<N>>,
    phases: u32,
    done: &AtomicBool,
) -> Vec<Caller<N>>
    requires some { 1 ≤ length callers.items }
    requires ready { All IsReady callers.items }
    ensures { AreAt N.shape N.told phases callers.items result.items }
{
    serve_phases(rt, alloc, service, &mut callers, phases);
    done.store(true, Ordering::SeqCst);
    callers
}

/// Turns the helpers of the nodes, one after another, until all calls are served. A round in which no message moved is
/// followed by a wait, which is longer each time.
fn turn_round<N: Names, S: Store + Drop, G: Gate, R: Wait>(
    rt: &R,
    service: &Service<N, S, G>,
    nodes: u32,
    done: &AtomicBool,
)
    requires { nodes ≤ N.shape.nodes }
{
    let backoff = Backoff::new();
    for _ in rt.forever() {
        if done.load(Ordering::SeqCst) {
            return;
        }
        if turn_each(rt, service, nodes) {
            backoff.reset();
        } else {
            backoff.snooze();
        }
    }
}

// One turn of each helper. Answers whether any was not idle.
fn turn_each<N: Names, S: Store + Drop, G: Gate, R: Wait>(
    rt: &R,
    service: &Service<N, S, G>,
    nodes: u32,
) -> bool
    requires { nodes ≤ N.shape.nodes }
{
    let mut moved = false;
    for node in 0..nodes {
        if !matches!(service.help_turn(rt, node), Turn::Idle) {
            moved = true;
        }
    }
    moved
}
