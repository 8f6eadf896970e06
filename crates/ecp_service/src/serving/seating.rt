//! Each pass gets the calls of its session, and a run is taken apart again.
ghost use Rattle.std.specs.Prelude.{◌≡◌, ◌<◌, [], false, length, map, All, IfOk, OnOk};
ghost use Rattle.ecp_command.specs.Input.Accepted.{session_view};
ghost use Rattle.ecp_sequencer.specs.Passes.{first_passes};
ghost use Rattle.ecp_service.specs.Callers.{AreSeated, replies_of};

use crate::serving::caller::Caller;
use crate::serving::replies::Replies;
use ecp_book::Names;
use ecp_cluster::Pass;
use ecp_command::Session;
use ecp_store::NoMemory;
use std::alloc::Global;

/// A caller of each pass, with the calls of the session that has its number.
pub(super) fn seated<N: Names>(
    alloc: Global,
    passes: Vec<Pass<N>>,
    sessions: Vec<Session>,
) -> Result<Vec<Caller<N>>, NoMemory>
    requires passes { passes.items ≡ first_passes N.spare_hands N.callers }
    requires room { All (λ s. s.number < N.callers) sessions.items }
    ensures { IfOk result (λ cs. AreSeated N.spare_hands N.callers (map session_view sessions.items) cs.items) }
{
    let mut callers = without_calls(alloc, passes)?;
    seat_each(alloc, &mut callers, sessions)?;
    Ok(callers)
}

// A caller of each pass, without a call.
fn without_calls<N: Names>(alloc: Global, passes: Vec<Pass<N>>) -> Result<Vec<Caller<N>>, NoMemory>
    requires { passes.items ≡ first_passes N.spare_hands N.callers }
    ensures { IfOk result (λ cs. AreSeated N.spare_hands N.callers [] cs.items) }
{
    let mut callers = Vec::with_capacity(alloc, passes.len())?;
    for pass in passes {
        callers.push_reserved(Caller::new(alloc, pass));
    }
    Ok(callers)
}

// Gives each session's calls to its caller. They are given from the last session to the first.
fn seat_each<N: Names>(
    alloc: Global,
    callers: &mut [Caller<N>],
    mut sessions: Vec<Session>,
) -> Result<(), NoMemory>
    requires seated { AreSeated N.spare_hands N.callers [] callers.old }
    requires room { All (λ s. s.number < N.callers) sessions.items }
    ensures { OnOk result (AreSeated N.spare_hands N.callers (map session_view sessions.items) callers.new) }
{
    while let Some(Session { number, calls }) = sessions.pop() {
        callers[number as usize].seat(alloc, calls)?;
    }
    Ok(())
}

/// The passes of the callers, and their answers. Where memory ran out for one, it did for all.
pub(super) fn parted<N: Names>(
    alloc: Global,
    callers: Vec<Caller<N>>,
) -> Result<(Vec<Pass<N>>, Vec<Replies>), NoMemory>
    ensures well { OnOk result (All (λ c. c.failed ≡ false) callers.items) }
    ensures passes { IfOk result (λ r. r.0.items ≡ map (λ c. c.pass) callers.items) }
    ensures replies { IfOk result (λ r. r.1.items ≡ map replies_of callers.items) }
{
    let mut passes = Vec::with_capacity(alloc, callers.len())?;
    let mut replies = Vec::with_capacity(alloc, callers.len())?;
    for caller in callers {
        let Caller {
            pass,
            calls: _,
            answers,
            failed,
        } = caller;
        if failed {
            return Err(NoMemory);
        }
        passes.push_reserved(pass);
        replies.push_reserved(Replies { answers });
    }
    Ok((passes, replies))
}
