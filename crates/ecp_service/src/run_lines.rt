ghost use Rattle.std.specs.Prelude.{◌≡◌, ◌≤◌, ◌++◌, codes, decimal, length};
ghost use Rattle.ecp_service.specs.RunLines.{count_line, lines_from, session_line};
ghost use Rattle.ecp_service.specs.Sinks.{Writes};

use crate::buffer::{Buffer, ROOM};
use crate::journal_lines::write_journal;
use ecp_history::Journal;
use ecp_store::{Failed, Sink};

/// Writes a line of a word and a number.
fn write_number<W: Sink>(
    buffer: &mut Buffer,
    out: &mut W,
    word: &[u8],
    number: u32,
) -> Result<(), Failed>
    requires { length word.now ≤ ROOM }
    ensures { Writes W.Sink result (out.old, buffer.old) (out.new, buffer.new) (word.now ++ (decimal number ++ codes "\n")) }
{
    let mut digits = itoa::Buffer::new();
    buffer.write(out, word)?;
    buffer.write(out, digits.format(number).as_bytes())?;
    buffer.write(out, b"\n")
}

/// Writes the line of a session.
pub(crate) fn write_session<W: Sink>(
    buffer: &mut Buffer,
    out: &mut W,
    number: u32,
) -> Result<(), Failed>
    ensures { Writes W.Sink result (out.old, buffer.old) (out.new, buffer.new) (session_line number) }
{
    write_number(buffer, out, b"session ", number)
}

/// Writes how many lines the journal has, those lines, and the last line of all.
pub(crate) fn write_history<W: Sink>(
    buffer: &mut Buffer,
    out: &mut W,
    journal: &Journal,
) -> Result<(), Failed>
    ensures { Writes W.Sink result (out.old, buffer.old) (out.new, buffer.new)
        (count_line journal.now.lines ++ (lines_from 0 journal.now.lines ++ codes "end\n")) }
{
    write_number(buffer, out, b"journal ", journal.len())?;
    write_journal(buffer, out, journal)?;
    buffer.write(out, b"end\n")
}
