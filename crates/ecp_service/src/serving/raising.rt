//! The passes of callers are raised between two phases.
ghost use Rattle.std.specs.Prelude.{◌≡◌, ◌≤◌, length};
ghost use Rattle.ecp_book.specs.Logs.{history_log};
ghost use Rattle.ecp_service.specs.Callers.{AreRaised, RaisedBy};

use crate::serving::caller::Caller;
use ecp_book::{Names, Tag};
use ecp_cluster::Service;
use ecp_helper::Gate;
use ecp_store::Store;

/// Raises the pass of each caller to the longest front of all.
pub(super) fn raise_all<N: Names, S: Store, G: Gate>(
    service: &Service<N, S, G>,
    callers: &mut [Caller<N>],
)
    requires { 1 ≤ length callers.old }
    ensures { AreRaised callers.old callers.new }
{
    let first = service.front(&mut callers[0].pass);
    let longest = raise_each(service, callers, first);
    let _ = raise_each(service, callers, longest);
}

// Raises the pass of each caller by this front and by those of the callers before it. Gives the last front, which is as long
// as any of them.
fn raise_each<N: Names, S: Store, G: Gate>(
    service: &Service<N, S, G>,
    callers: &mut [Caller<N>],
    mut front: Tag<N>,
) -> Tag<N>
    requires { front.log ≡ history_log }
    ensures raised { RaisedBy front.items callers.old callers.new result.items }
    ensures log { result.log ≡ history_log }
{
    for caller in callers.iter_mut() {
        service.raise(&mut caller.pass, &mut front);
        front = service.front(&mut caller.pass);
    }
    front
}
