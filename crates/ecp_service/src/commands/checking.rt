ghost use Rattle.std.specs.Prelude.{◌≡◌, ◌≢◌, ◌<◌, ◌^◌, length, sum_by, IsTrue, IfOk, IfErr};
ghost use Rattle.ecp_command.specs.declared.words.commands.Command.{Command};
ghost use Rattle.ecp_service.specs.Answers.{Only};
ghost use Rattle.ecp_service.specs.Ends.{ends, Answers, IsDone, IsStopped, IsCutShort, IsTold, IsTakenFrom, IsComplete};
ghost use Rattle.ecp_service.specs.Paid.{no_stores};
ghost use Rattle.ecp_service.specs.Sources.{GaveTooMuch, GaveFew};
ghost use Rattle.ecp_service.specs.Stops.{IsReason};
ghost use Rattle.ecp_service.specs.declared.stop.Stop.{Stop};

use crate::Stop;
use crate::answer::{DONE, WRITE_FAULT, answer, refuse};
use crate::reading::read_script;
use ecp_command::Session;
use ecp_store::{Sink, Source};
use ecp_text::LineBuffer;
use std::alloc::Global;

/// The line that says how many calls the input has.
fn accepted_line<R: Source>(alloc: Global, input: &mut R) -> Result<LineBuffer, Stop>
    ensures line { IfOk result (Answers R.Source (Only Command.Check) no_stores input.old input.new) }
    ensures err { IfErr result (IsReason R.Source (Only Command.Check) input.old input.new) }
    ensures few { GaveFew R.Source input.old input.new }
    ensures too_long { IsTrue R.tells → GaveTooMuch R.Source input.old input.new → result ≡ Err Stop.TooLong }
{
    let script = read_script(alloc, input)?;
    let mut line = LineBuffer::new();
    line.put(b"accepted ");
    line.put_digits(call_count(&script.sessions));
    line.end_line();
    Ok(line)
}

// How many calls the sessions have.
#[tactic(auto, using(std::proofs::lemmas::List::Sums::sum_by_more, std::proofs::lemmas::List::Sums::sum_by_more_le))]
fn call_count(sessions: &[Session]) -> u32
    requires few { sum_by (λ s. length s.calls.items) sessions.now < 2 ^ 32 }
    ensures { result ≡ sum_by (λ s. length s.calls.items) sessions.now }
{
    let mut count = 0;
    for session in sessions {
        count += session.calls.len() as u32;
    }
    count
}

/// Reads the input to its end as a head and a script, and writes how many calls the script has, in one line `accepted C`.
/// Nothing is served. Answers the status of the program:
///
/// - 0: the whole line is written and flushed;
/// - 3: the head is not accepted;
/// - 4: a line of the script is not accepted;
/// - 5: a read of the input failed;
/// - 6: a write to `out` or `diag` failed;
/// - 7: memory ran out;
/// - 8: the input has more than 16 MiB.
///
/// With 3, 4, 5, 7 and 8 nothing went to `out`, and `diag` has one line that says why.
pub fn check<R: Source, W: Sink, E: Sink>(
    alloc: Global,
    input: &mut R,
    out: &mut W,
    diag: &mut E,
) -> u8
    ensures done { result ≡ DONE →
        IsDone R.Source W.Sink (Only Command.Check) no_stores (ends input.old out.old diag.old) (ends input.new out.new diag.new) }
    ensures stopped { result ≢ DONE → result ≢ WRITE_FAULT →
        IsStopped R.Source E.Sink (Only Command.Check) (ends input.old out.old diag.old) (ends input.new out.new diag.new) result }
    ensures cut_short { result ≡ WRITE_FAULT →
        IsCutShort R.Source W.Sink E.Sink (Only Command.Check) no_stores (ends input.old out.old diag.old) (ends input.new out.new diag.new) }
    ensures told { IsTold R.Source (Only Command.Check) input.old input.new result }
    ensures taken { IsTakenFrom R.Source (Only Command.Check) input.old input.new }
    ensures complete { IsComplete R.Source W.Sink E.Sink (Only Command.Check) (ends input.old out.old diag.old) (ends input.new out.new diag.new) result }
{
    match accepted_line(alloc, input) {
        Ok(line) => answer(out, line.bytes()),
        Err(stop) => refuse(diag, stop),
    }
}
