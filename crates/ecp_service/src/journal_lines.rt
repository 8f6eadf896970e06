ghost use Rattle.ecp_service.specs.RunLines.{lines_from};
ghost use Rattle.ecp_service.specs.Sinks.{Writes};

use crate::buffer::Buffer;
use ecp_history::{Journal, put_line};
use ecp_store::{Failed, Sink};
use ecp_text::LineBuffer;

/// Writes the lines of a journal.
pub(crate) fn write_journal<W: Sink>(
    buffer: &mut Buffer,
    out: &mut W,
    journal: &Journal,
) -> Result<(), Failed>
    ensures { Writes W.Sink result (out.old, buffer.old) (out.new, buffer.new) (lines_from 0 journal.now.lines) }
{
    let mut text = LineBuffer::new();
    for at in 0..journal.len() {
        text.clear();
        put_line(&mut text, at, journal.line(at));
        buffer.write(out, text.bytes())?;
    }
    Ok(())
}
