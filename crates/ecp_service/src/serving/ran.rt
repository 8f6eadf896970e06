//! A script is read, and served over the given stores.
ghost use Rattle.std.specs.Prelude.{◌≡◌, ◌≢◌, ℕ, ◌≤◌, ◌<◌, [], All, IsTrue, IfOk, IfErr, map, vec_len};
ghost use Rattle.ecp_command.specs.Input.Accepted.{session_view, view};
ghost use Rattle.ecp_command.specs.Input.Settings.{IsInRange};
ghost use Rattle.ecp_command.specs.declared.words.commands.Command.{Command};
ghost use Rattle.ecp_service.specs.Answers.{Only};
ghost use Rattle.ecp_service.specs.Ends.{Answers};
ghost use Rattle.ecp_service.specs.Over.{RanOver};
ghost use Rattle.ecp_service.specs.Paid.{storage};
ghost use Rattle.ecp_service.specs.Served.{run_lines};
ghost use Rattle.ecp_service.specs.Servable.{AreServable};
ghost use Rattle.ecp_service.specs.Sources.{GaveTooMuch, GaveFew};
ghost use Rattle.ecp_service.specs.Stops.{IsReason};
ghost use Rattle.ecp_service.specs.declared.stop.Stop.TheVariants as stop;
ghost use Rattle.ecp_shape.specs.declared.limits.TheConstants.{MAX_NODES, MAX_SESSIONS};

use crate::Stop;
use crate::buffer::Buffer;
use crate::reading::read_script;
use crate::serving::fit::lines_fit;
use crate::serving::on::serve_on;
use crate::serving::over::{Script, ScriptRun};
use ecp_command::{Input, Session};
use ecp_helper::Gate;
use ecp_store::{NoMemory, Source, Store};
use std::alloc::Global;
use std::sync::Wait;
use std::thread::Threads;

/// A run that is done, with all the memory that its text takes.
#[derive(Drop)]
pub(crate) struct Ran {
    /// The numbers of the sessions, in rising order.
    pub numbers: Vec<u32>,
    pub run: ScriptRun,
    pub buffer: Buffer,
}

/// The run that the input asks for, over these stores, which come back in their order. The input's bytes are let go before the
/// first call is served.
pub(crate) fn run_input<
    R: Source,
    S: Store + Drop + Send,
    G: Gate + Drop + Sync,
    T: Threads + Wait + Sync,
>(rt: &T, alloc: Global, input: &mut R, stores: Vec<S>, gate: G) -> (Result<Ran, Stop>, Vec<S>)
    requires { vec_len stores ≡ MAX_NODES }
    ensures run { IfOk result.0 (λ ran. Answers R.Source (Only Command.Run) (storage S.tells S.faults S.faultless stores.items result.1.items)
        input.old input.new (run_lines ran.numbers.items ran.run.replies.items ran.run.journal.lines)) }
    ensures buffer { IfOk result.0 (λ ran. ran.buffer ≡ []) }
    ensures err { IfErr result.0 (IsReason R.Source (Only Command.Run) input.old input.new) }
    ensures few { GaveFew R.Source input.old input.new }
    ensures too_long { IsTrue R.tells → GaveTooMuch R.Source input.old input.new → result.0 ≡ Err stop.TooLong }
    ensures back { vec_len result.1 ≡ vec_len stores }
    ensures kept { IfErr result.0 (λ why. why ≢ stop.NoMemory → result.1 ≡ stores) }
{
    match read_script(alloc, input) {
        Ok(input) => {
            let (ran, stores) = serve(rt, alloc, input, stores, gate);
            match ran {
                Ok(ran) => (Ok(ran), stores),
                Err(NoMemory) => (Err(Stop::NoMemory), stores),
            }
        }
        Err(stop) => (Err(stop), stores),
    }
}

/// Serves the calls of an input.
fn serve<S: Store + Drop + Send, G: Gate + Drop + Sync, T: Threads + Wait + Sync>(
    rt: &T,
    alloc: Global,
    input: Input,
    stores: Vec<S>,
    gate: G,
) -> (Result<Ran, NoMemory>, Vec<S>)
    requires head { IsInRange input.head }
    requires servable { AreServable input.phases (map session_view input.sessions.items) }
    requires stores { vec_len stores ≡ MAX_NODES }
    ensures run { IfOk result.0 (λ ran. RanOver S.tells S.faults S.faultless (view input) stores.items ran.numbers.items ran.run.replies.items ran.run.journal.lines result.1.items) }
    ensures buffer { IfOk result.0 (λ ran. ran.buffer ≡ []) }
    ensures back { vec_len result.1 ≡ vec_len stores }
{
    let Input {
        head,
        sessions,
        phases,
    } = input;
    let (Ok(buffer), Ok(numbers)) = (Buffer::new(alloc), numbers_of(alloc, &sessions)) else {
        return (Err(NoMemory), stores);
    };
    let callers = callers_for(&sessions);
    let script = Script {
        sessions,
        phases,
        workers: head.workers,
    };
    let (run, stores) = serve_on(rt, alloc, &head, callers, script, stores, gate);
    match run {
        Ok(run) => {
            lines_fit(&run.journal);
            let ran = Ran {
                numbers,
                run,
                buffer,
            };
            (Ok(ran), stores)
        }
        Err(NoMemory) => (Err(NoMemory), stores),
    }
}

/// How many callers the sessions need: one more than the greatest number, or one where there is none.
fn callers_for(sessions: &[Session]) -> u32
    requires { (phases : ℕ) × AreServable phases (map session_view sessions.now) }
    ensures some { (1 ≤ result) × (result ≤ MAX_SESSIONS) }
    ensures room { All (λ s. s.number < result) sessions.now }
{
    match sessions.last() {
        Some(session) => session.number + 1,
        None => 1,
    }
}

/// The numbers of the sessions.
fn numbers_of(alloc: Global, sessions: &[Session]) -> Result<Vec<u32>, NoMemory>
    ensures { IfOk result (λ v. v.items ≡ map (λ s. s.number) sessions.now) }
{
    Ok(
        sessions
            .iter()
            .map(|session| session.number)
            .collect(alloc)?,
    )
}
