ghost use Rattle.std.specs.Prelude.{◌≡◌, ◌+◌, ◌<◌, ◌≤◌, [], ◌++◌, length, take, vec_len, IsTrue, IfOk, IfErr, OnOk};
ghost use Rattle.ecp_command.specs.Input.Accepted.{view};
ghost use Rattle.ecp_command.specs.Input.Settings.{IsInRange};
ghost use Rattle.ecp_store.specs.Faults.{Counts};
ghost use Rattle.ecp_service.specs.Sources.{IsRead, IsScript, GaveTooMuch, GaveFew};
ghost use Rattle.ecp_service.specs.Stops.{StopsRead, StopsScript};
ghost use Rattle.ecp_service.specs.declared.stop.Stop.TheVariants.{TooLong};

use crate::Stop;
use ecp_command::{Input, read_input};
use ecp_shape::limits::MAX_INPUT;
use ecp_store::{Failed, Source};
use std::alloc::{AllocError, Global};

/// How many bytes are asked for at once: 64 KiB.
const PIECE: usize = 65_536;

/// For how many bytes room is taken at first: 4 MiB, of which only what is filled costs anything.
const FIRST_ROOM: usize = 4_194_304;

/// Makes the buffer ready for one more piece behind its first `filled` bytes. Its room doubles, to at most a byte more
/// than an input may have; bytes are made zero only as far as the piece goes.
fn make_ready(buf: &mut Vec<u8>, filled: usize) -> Result<(), AllocError>
    requires { (filled ≤ vec_len buf.old) × (filled ≤ MAX_INPUT) × (vec_len buf.old ≤ MAX_INPUT + 1) }
    ensures longer { OnOk result (filled < vec_len buf.new) }
    ensures within { OnOk result (vec_len buf.new ≤ MAX_INPUT + 1) }
    ensures kept { OnOk result (take (vec_len buf.old) buf.new.items ≡ buf.old.items) }
{
    let len = (filled + PIECE).min(MAX_INPUT + 1);
    if buf.len() >= len {
        return Ok(());
    }
    if buf.capacity() < len {
        let room = buf
            .capacity()
            .saturating_mul(2)
            .max(FIRST_ROOM)
            .min(MAX_INPUT + 1);
        buf.reserve_exact(room.saturating_sub(buf.len()))?;
    }
    buf.resize(len, 0)
}

/// Pulls one piece into the buffer behind its first `filled` bytes.
fn pull_piece<R: Source>(input: &mut R, buf: &mut [u8], filled: usize) -> Result<usize, Failed>
    requires { filled < length buf.old }
    ensures within { IfOk result (λ m. filled + m ≤ length buf.new) }
    ensures front { IsTrue R.tells →
        IfOk result (λ m. take (filled + m) buf.new ++ R.left input.new ≡ take filled buf.old ++ R.left input.old) }
    ensures end_only { IsTrue R.tells → IfOk result (λ m. m ≡ 0 → R.left input.new ≡ []) }
    ensures err { IsTrue R.tells → IfErr result (λ _. R.left input.new ≡ R.left input.old) }
    ensures counts { Counts result (R.faults input.old) (R.faults input.new) }
{
    let end = buf.len().min(filled + PIECE);
    input.pull(&mut buf[filled..end])
}

/// All that the input has left, read to its end. It keeps one buffer, which it never holds more than
/// twice, and stops at the first fault and at the first byte past [`MAX_INPUT`].
pub(crate) fn read_to_end<R: Source>(alloc: Global, input: &mut R) -> Result<Vec<u8>, Stop>
    ensures read { IfOk result (λ bytes. IsRead R.Source input.old input.new bytes.items) }
    ensures err { IfErr result (StopsRead R.Source input.old input.new) }
    ensures few { GaveFew R.Source input.old input.new }
    ensures too_long { IsTrue R.tells → GaveTooMuch R.Source input.old input.new → result ≡ Err TooLong }
{
    let mut buf = Vec::new(alloc);
    let mut filled = 0;
    while filled <= MAX_INPUT {
        make_ready(&mut buf, filled)?;
        match pull_piece(input, &mut buf, filled) {
            Ok(0) => {
                buf.truncate(filled);
                return Ok(buf);
            }
            Ok(m) => filled += m,
            Err(_) => return Err(Stop::ReadFault),
        }
    }
    Err(Stop::TooLong)
}

/// The input, read to its end as a head and a script.
pub(crate) fn read_script<R: Source>(alloc: Global, input: &mut R) -> Result<Input, Stop>
    ensures read { IfOk result (λ script. IsScript R.Source input.old input.new (view script)) }
    ensures head { IfOk result (λ script. IsInRange script.head) }
    ensures err { IfErr result (StopsScript R.Source input.old input.new) }
    ensures few { GaveFew R.Source input.old input.new }
    ensures too_long { IsTrue R.tells → GaveTooMuch R.Source input.old input.new → result ≡ Err TooLong }
{
    let bytes = read_to_end(alloc, input)?;
    Ok(read_input(alloc, &bytes)?)
}
