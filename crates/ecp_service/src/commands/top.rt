ghost use Rattle.std.specs.Prelude.{◌≡◌, ◌≢◌, vec_len};
ghost use Rattle.ecp_command.specs.Words.{texts};
ghost use Rattle.ecp_service.specs.Answers.{Asks};
ghost use Rattle.ecp_service.specs.Ends.{ends, IsDone, IsStopped, IsCutShort, IsTold, IsTakenFrom, IsComplete};
ghost use Rattle.ecp_service.specs.Paid.{storage};
ghost use Rattle.ecp_service.specs.Stops.{code_of};
ghost use Rattle.ecp_service.specs.declared.stop.Stop.TheVariants as stop;
ghost use Rattle.ecp_shape.specs.declared.limits.TheConstants.{MAX_NODES};

use crate::Stop;
use crate::answer::{DONE, WRITE_FAULT, refuse};
use crate::commands::checking::check;
use crate::commands::mending::mend;
use crate::commands::running::run;
use ecp_command::{Command, command};
use ecp_helper::Gate;
use ecp_store::{Sink, Source, Store};
use std::alloc::Global;
use std::sync::Wait;
use std::thread::Threads;

/// Runs the command that the words ask for, on this input and over these stores, of which a run uses the first, as many as its
/// head has nodes. Answers the status of the program, and gives the stores back, in their order:
///
/// - 0: the whole answer is written and flushed;
/// - 2: the words ask for no command; nothing was read;
/// - 3: the head of the input is not accepted;
/// - 4: a line of its script is not accepted;
/// - 5: a read of the input failed;
/// - 6: a write to `out` or `diag` failed;
/// - 7: memory ran out;
/// - 8: the input has more than 16 MiB.
///
/// With 2, 3, 4, 5, 7 and 8 nothing went to `out`, and `diag` has one line that says why. The gate is asked before a helper
/// adds its part to a slice; an open one lets each pass. A run may wait for a lock.
pub fn top<
    R: Source,
    W: Sink,
    E: Sink,
    S: Store + Drop + Send,
    G: Gate + Sync,
    T: Threads + Wait + Sync,
>(
    rt: &T,
    alloc: Global,
    words: &[String],
    input: &mut R,
    out: &mut W,
    diag: &mut E,
    stores: Vec<S>,
    gate: &G,
) -> (u8, Vec<S>)
    requires { vec_len stores ≡ MAX_NODES }
    ensures done { result.0 ≡ DONE →
        IsDone R.Source W.Sink (Asks (texts words.now)) (storage S.tells S.faults S.faultless stores.items result.1.items)
        (ends input.old out.old diag.old) (ends input.new out.new diag.new) }
    ensures stopped { result.0 ≢ DONE → result.0 ≢ WRITE_FAULT →
        IsStopped R.Source E.Sink (Asks (texts words.now)) (ends input.old out.old diag.old) (ends input.new out.new diag.new) result.0 }
    ensures cut_short { result.0 ≡ WRITE_FAULT →
        IsCutShort R.Source W.Sink E.Sink (Asks (texts words.now)) (storage S.tells S.faults S.faultless stores.items result.1.items)
        (ends input.old out.old diag.old) (ends input.new out.new diag.new) }
    ensures told { IsTold R.Source (Asks (texts words.now)) input.old input.new result.0 }
    ensures taken { IsTakenFrom R.Source (Asks (texts words.now)) input.old input.new }
    ensures complete { IsComplete R.Source W.Sink E.Sink (Asks (texts words.now)) (ends input.old out.old diag.old) (ends input.new out.new diag.new) result.0 }
    ensures back { vec_len result.1 ≡ vec_len stores }
    ensures kept { result.0 ≢ DONE → result.0 ≢ WRITE_FAULT → result.0 ≢ code_of stop.NoMemory → result.1 ≡ stores }
{
    match command(words) {
        Some(Command::Mend { k, n, row }) => (mend(alloc, k, n, row, input, out, diag), stores),
        Some(Command::Run) => run(rt, alloc, input, out, diag, stores, gate),
        Some(Command::Check) => (check(alloc, input, out, diag), stores),
        Some(Command::RunDir(_) | Command::Soak(_)) => (refuse(diag, Stop::Usage), stores),
        None => (refuse(diag, Stop::Usage), stores),
    }
}
