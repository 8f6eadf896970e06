ghost use Rattle.std.specs.Prelude.{◌≡◌, ◌+◌, ◌≤◌, ◌∷◌, ◌++◌, decimal, length, take};
ghost use Rattle.ecp_entry.specs.JournalText.{caller_word, journal_line, part_word};

use crate::act_words::{TEXT_ROOM, put_act};
use crate::line::Line;
use crate::part::Part;
use ecp_shape::limits::MAX_SESSIONS;
use ecp_text::LineBuffer;
use ecp_text::bytes::{LINE_ROOM, NUMBER_ROOM, SPACE};

/// Puts the journal line of the entry at a position, with its line end, into the front of `out`, and
/// answers its length in bytes. What stood behind it in `out` is of no use afterwards.
pub fn line_text(at: u32, line: &Line, out: &mut [u8; LINE_ROOM]) -> usize
    ensures short { result ≤ TEXT_ROOM }
    ensures text { take result out.new ≡ journal_line at line.now }
{
    let mut text = LineBuffer::new();
    put_line(&mut text, at, line);
    text.copy_to(out)
}

/// Puts the journal line of the entry at a position, with its line end, behind what `out` holds.
pub fn put_line(out: &mut LineBuffer, at: u32, line: &Line)
    requires { length out.old + TEXT_ROOM ≤ LINE_ROOM }
    ensures text { out.new ≡ out.old ++ journal_line at line.now }
    ensures within { length out.new ≤ length out.old + TEXT_ROOM }
{
    out.put_digits(at);
    put_caller(out, line.caller);
    out.put_number(line.call);
    put_part(out, line.part);
    out.put_number(line.point);
    put_act(out, &line.act);
    out.end_line();
}

/// Puts `s` and the session, or `n` and the node, behind a space.
fn put_caller(out: &mut LineBuffer, caller: u8)
    requires { length out.old + (NUMBER_ROOM + 1) ≤ LINE_ROOM }
    ensures text { out.new ≡ out.old ++ SPACE ∷ caller_word caller }
    ensures within { length out.new ≤ length out.old + (NUMBER_ROOM + 1) }
{
    let caller = u32::from(caller);
    if caller < MAX_SESSIONS {
        out.put_word(b"s");
        out.put_digits(caller);
    } else {
        out.put_word(b"n");
        out.put_digits(caller - MAX_SESSIONS);
    }
}

/// Puts the number of a part, or `end`, behind a space.
fn put_part(out: &mut LineBuffer, part: Part)
    requires { length out.old + NUMBER_ROOM ≤ LINE_ROOM }
    ensures text { out.new ≡ out.old ++ SPACE ∷ part_word part }
    ensures within { length out.new ≤ length out.old + NUMBER_ROOM }
{
    match part {
        Part::Part(number) => out.put_number(number),
        Part::End => out.put_word(b"end"),
    }
}
