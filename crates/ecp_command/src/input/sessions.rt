ghost use Rattle.std.specs.Prelude.{◌≡◌, ◌==◌, not, filter, ◌<◌, ◌≤◌, [], length, map, All, IfOk, OnOk, vec_len};
ghost use Rattle.ecp_shape.specs.declared.limits.TheConstants.{MAX_LINES};
ghost use Rattle.ecp_command.specs.Input.Calls.{sessions_of, phases_of};
ghost use Rattle.ecp_command.specs.Input.Sessions.{IsSession, HaveCalls, GainCall};
ghost use Rattle.ecp_command.specs.Input.Accepted.{session_view};
ghost use Rattle.ecp_command.specs.Input.Script.{forms_of};

use crate::input::form::Form;
use crate::input::numbered::Numbered;
use crate::input::planned::Planned;
use crate::input::schedule::Schedule;
use crate::input::session::Session;
use ecp_shape::limits::MAX_SESSIONS;
use ecp_store::NoMemory;
use std::alloc::Global;

/// The sessions that have a call, in rising order, each with its calls in theirs, and how many phases there are.
pub(crate) fn sessions_with_calls(alloc: Global, forms: Vec<Numbered>) -> Result<Schedule, NoMemory>
    requires sessions { All (λ n. IsSession n.form) forms.items }
    requires few { length forms.items ≤ MAX_LINES }
    ensures sessions { IfOk result (λ s. map session_view s.sessions.items ≡ sessions_of (forms_of forms.items)) }
    ensures phases { IfOk result (λ s. s.phases ≡ phases_of (forms_of forms.items)) }
{
    let mut sessions = all_sessions(alloc)?;
    let mut session = 0;
    let mut phase = 0;
    'lines: for numbered in forms {
        match numbered.form {
            Form::Session(number) => session = number,
            Form::Barrier => phase += 1,
            Form::Call(call) => add_call(&mut sessions, session, Planned { phase, call })?,
        }
    }
    drop_empty(&mut sessions);
    Ok(Schedule {
        sessions,
        phases: phase + 1,
    })
}

// Each session, with no call.
fn all_sessions(alloc: Global) -> Result<Vec<Session>, NoMemory>
    ensures { IfOk result (λ v. HaveCalls MAX_SESSIONS [] v.items) }
{
    let mut sessions = Vec::new(alloc);
    for number in 0..MAX_SESSIONS {
        sessions.push(Session {
            number,
            calls: Vec::new(alloc),
        })?;
    }
    Ok(sessions)
}

// Adds a call to its session.
fn add_call(sessions: &mut Vec<Session>, session: u32, planned: Planned) -> Result<(), NoMemory>
    requires { session < vec_len sessions.old }
    ensures { OnOk result (GainCall session planned sessions.old.items sessions.new.items) }
{
    let of_session = &mut sessions[session as usize];
    of_session.calls.push(planned)?;
    Ok(())
}

// Keeps the sessions that have a call.
fn drop_empty(sessions: &mut Vec<Session>)
    ensures { sessions.new.items ≡ filter (λ s. not (vec_len s.calls == 0)) sessions.old.items }
{
    sessions.retain(|s| !s.calls.is_empty());
}
