ghost use Rattle.std.specs.Prelude.{◌≡◌, ◌≢◌, ℕ, List, length, IsTrue, IfOk, IfErr};
ghost use Rattle.ecp_command.specs.Words.{IsRow};
ghost use Rattle.ecp_command.specs.declared.words.commands.Command.{Command};
ghost use Rattle.ecp_service.specs.Answers.{Only};
ghost use Rattle.ecp_service.specs.Ends.{ends, Answers, IsDone, IsStopped, IsCutShort, IsTold, IsTakenFrom, IsComplete};
ghost use Rattle.ecp_service.specs.Paid.{no_stores};
ghost use Rattle.ecp_service.specs.Sources.{GaveTooMuch, GaveFew};
ghost use Rattle.ecp_service.specs.Stops.{StopsRead};
ghost use Rattle.ecp_service.specs.declared.stop.Stop.{Stop};

use crate::Stop;
use crate::answer::{DONE, WRITE_FAULT, answer, refuse};
use crate::reading::read_to_end;
use ecp_code::{Block, Code};
use ecp_store::{Sink, Source};
use std::alloc::Global;

/// The row of the input that it is asked for.
fn rebuild<R: Source>(alloc: Global, k: u32, n: u32, row: u32, input: &mut R) -> Result<Block, Stop>
    requires { IsRow k n row }
    ensures row { IfOk result (Answers R.Source (Only (Command.Mend k n row)) no_stores input.old input.new) }
    ensures err { IfErr result (StopsRead R.Source input.old input.new) }
    ensures few { GaveFew R.Source input.old input.new }
    ensures too_long { IsTrue R.tells → GaveTooMuch R.Source input.old input.new → result ≡ Err Stop.TooLong }
{
    let bytes = read_to_end(alloc, input)?;
    match Code::new(n, k) {
        Ok(code) => Ok(code.rebuild(alloc, &bytes, row as u8)?),
        Err(_) => unreachable!(),
    }
}

/// Reads the input to its end as one stripe of k blocks, each of ceil(length / k) bytes, the last ones
/// filled with zeros, and writes row `row` of that stripe, rebuilt from the first k rows other than it.
/// Answers the status of the program:
///
/// - 0: the whole row is written and flushed;
/// - 5: a read of the input failed;
/// - 6: a write to `out` or `diag` failed;
/// - 7: memory ran out;
/// - 8: the input has more than 16 MiB.
///
/// With 5, 7 and 8 nothing went to `out`, and `diag` has one line that says why.
pub fn mend<R: Source, W: Sink, E: Sink>(
    alloc: Global,
    k: u32,
    n: u32,
    row: u32,
    input: &mut R,
    out: &mut W,
    diag: &mut E,
) -> u8
    requires { IsRow k n row }
    ensures done { result ≡ DONE →
        IsDone R.Source W.Sink (Only (Command.Mend k n row)) no_stores (ends input.old out.old diag.old) (ends input.new out.new diag.new) }
    ensures stopped { result ≢ DONE → result ≢ WRITE_FAULT →
        IsStopped R.Source E.Sink (Only (Command.Mend k n row)) (ends input.old out.old diag.old) (ends input.new out.new diag.new) result }
    ensures cut_short { result ≡ WRITE_FAULT →
        IsCutShort R.Source W.Sink E.Sink (Only (Command.Mend k n row)) no_stores (ends input.old out.old diag.old) (ends input.new out.new diag.new) }
    ensures told { IsTold R.Source (Only (Command.Mend k n row)) input.old input.new result }
    ensures taken { IsTakenFrom R.Source (Only (Command.Mend k n row)) input.old input.new }
    ensures complete { IsComplete R.Source W.Sink E.Sink (Only (Command.Mend k n row)) (ends input.old out.old diag.old) (ends input.new out.new diag.new) result }
{
    match rebuild(alloc, k, n, row, input) {
        Ok(block) => answer(out, block.bytes()),
        Err(stop) => refuse(diag, stop),
    }
}
