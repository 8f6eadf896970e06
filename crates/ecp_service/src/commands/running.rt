ghost use Rattle.std.specs.Prelude.{◌≡◌, ◌≢◌, vec_len};
ghost use Rattle.ecp_command.specs.declared.words.commands.Command.{Command};
ghost use Rattle.ecp_service.specs.Answers.{Only};
ghost use Rattle.ecp_service.specs.Ends.{ends, IsDone, IsStopped, IsCutShort, IsTold, IsTakenFrom, IsComplete};
ghost use Rattle.ecp_service.specs.Paid.{storage};
ghost use Rattle.ecp_service.specs.Stops.{code_of};
ghost use Rattle.ecp_service.specs.declared.answer.TheConstants.{DONE, WRITE_FAULT};
ghost use Rattle.ecp_service.specs.declared.stop.Stop.TheVariants as stop;
ghost use Rattle.ecp_shape.specs.declared.limits.TheConstants.{MAX_NODES};

use crate::answer::refuse;
use crate::serving::{run_input, write_text};
use ecp_helper::Gate;
use ecp_store::{Sink, Source, Store};
use std::alloc::Global;
use std::sync::Wait;
use std::thread::Threads;

/// Reads the input to its end as a head and a script, serves the calls of the script over the first of these stores, as many as
/// the head has nodes, and writes their replies and the journal. Answers the status of the program, and gives the stores back,
/// in their order:
///
/// - 0: the whole text is written and flushed;
/// - 3: the head is not accepted;
/// - 4: a line of the script is not accepted;
/// - 5: a read of the input failed;
/// - 6: a write to `out` or `diag` failed;
/// - 7: memory ran out;
/// - 8: the input has more than 16 MiB.
///
/// With 3, 4, 5, 7 and 8 nothing went to `out`, and `diag` has one line that says why.
pub(crate) fn run<
    R: Source,
    W: Sink,
    E: Sink,
    S: Store + Drop + Send,
    G: Gate + Drop + Sync,
    T: Threads + Wait + Sync,
>(
    rt: &T,
    alloc: Global,
    input: &mut R,
    out: &mut W,
    diag: &mut E,
    stores: Vec<S>,
    gate: G,
) -> (u8, Vec<S>)
    requires { vec_len stores ≡ MAX_NODES }
    ensures done { result.0 ≡ DONE →
        IsDone R.Source W.Sink (Only Command.Run) (storage S.tells S.faults S.faultless stores.items result.1.items)
        (ends input.old out.old diag.old) (ends input.new out.new diag.new) }
    ensures stopped { result.0 ≢ DONE → result.0 ≢ WRITE_FAULT →
        IsStopped R.Source E.Sink (Only Command.Run) (ends input.old out.old diag.old) (ends input.new out.new diag.new) result.0 }
    ensures cut_short { result.0 ≡ WRITE_FAULT →
        IsCutShort R.Source W.Sink E.Sink (Only Command.Run) (storage S.tells S.faults S.faultless stores.items result.1.items)
        (ends input.old out.old diag.old) (ends input.new out.new diag.new) }
    ensures told { IsTold R.Source (Only Command.Run) input.old input.new result.0 }
    ensures taken { IsTakenFrom R.Source (Only Command.Run) input.old input.new }
    ensures complete { IsComplete R.Source W.Sink E.Sink (Only Command.Run) (ends input.old out.old diag.old) (ends input.new out.new diag.new) result.0 }
    ensures back { vec_len result.1 ≡ vec_len stores }
    ensures kept { result.0 ≢ DONE → result.0 ≢ WRITE_FAULT → result.0 ≢ code_of stop.NoMemory → result.1 ≡ stores }
{
    let (ran, stores) = run_input(rt, alloc, input, stores, gate);
    match ran {
        Ok(ran) => (write_text(out, ran), stores),
        Err(stop) => (refuse(diag, stop), stores),
    }
}
