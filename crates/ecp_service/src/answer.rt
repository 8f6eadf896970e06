ghost use Rattle.std.specs.Prelude.{◌≡◌, ◌≢◌, ◌⊎◌};
ghost use Rattle.ecp_service.specs.Sinks.{GotAll, GotPart};
ghost use Rattle.ecp_service.specs.Stops.{code_of, line_of};

use crate::Stop;
use crate::writing::write_all;
use ecp_store::Sink;

/// The status of a command that wrote its whole answer.
pub const DONE: u8 = 0;

/// The status of a command that could not write all that it had to say.
pub const WRITE_FAULT: u8 = 6;

/// Writes a command's answer and gives the status that comes of it.
pub(crate) fn answer<W: Sink>(out: &mut W, text: &[u8]) -> u8
    ensures status { (result ≡ DONE) ⊎ (result ≡ WRITE_FAULT) }
    ensures done { result ≡ DONE → GotAll W.Sink out.old out.new text.now }
    ensures cut_short { result ≡ WRITE_FAULT → GotPart W.Sink out.old out.new text.now }
{
    match write_all(out, text) {
        Ok(()) => DONE,
        Err(_) => WRITE_FAULT,
    }
}

/// Says on `diag` why a command stops, and gives the status of the program: that of the reason, or that of a
/// write fault where the line could not be written whole.
pub fn refuse<E: Sink>(diag: &mut E, stop: Stop) -> u8
    ensures status { (result ≡ code_of stop) ⊎ (result ≡ WRITE_FAULT) }
    ensures said { result ≢ WRITE_FAULT → GotAll E.Sink diag.old diag.new (line_of stop) }
    ensures cut_short { result ≡ WRITE_FAULT → GotPart E.Sink diag.old diag.new (line_of stop) }
{
    match write_all(diag, stop.line().bytes()) {
        Ok(()) => stop.code(),
        Err(_) => WRITE_FAULT,
    }
}
