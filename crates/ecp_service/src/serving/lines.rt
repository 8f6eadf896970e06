//! What a run writes: the replies of its sessions, and the journal.
ghost use Rattle.std.specs.Prelude.{◌≡◌, ◌⊎◌, ◌++◌, [], flat_map};
ghost use Rattle.ecp_entry.specs.declared.act.Act.TheVariants.{Data};
ghost use Rattle.ecp_service.specs.RunLines.{session_line};
ghost use Rattle.ecp_service.specs.Served.{answer_line, answers_by, numbered_replies, run_lines};
ghost use Rattle.ecp_service.specs.Sinks.{Delivers, GotAll, GotPart, Writes};

use crate::answer::{DONE, WRITE_FAULT};
use crate::buffer::Buffer;
use crate::reply_lines::{write_data, write_file, write_start, write_sum};
use crate::run_lines::{write_history, write_session};
use crate::serving::over::ScriptRun;
use crate::serving::ran::Ran;
use crate::serving::replies::Replies;
use ecp_cluster::Answer;
use ecp_entry::{Act, Reply};
use ecp_history::Journal;
use ecp_store::{Failed, Sink};

/// Writes the reply line to a call that was answered so.
fn write_answer<W: Sink>(buffer: &mut Buffer, out: &mut W, answer: &Answer) -> Result<(), Failed>
    ensures { Writes W.Sink result (out.old, buffer.old) (out.new, buffer.new) (answer_line answer.now) }
{
    match &answer.act {
        Act::Data => write_block(buffer, out, answer),
        Act::Whole => write_file(buffer, out, answer.len, &answer.digest),
        Act::Broken(index) => write_start(
            buffer,
            out,
            &Reply::Broken {
                index: *index,
                cause: answer.cause,
            },
        ),
        ended => write_start(buffer, out, &Reply::Ended(*ended)),
    }
}

/// Writes the reply line to a call that was answered by a block, or by its digest.
fn write_block<W: Sink>(buffer: &mut Buffer, out: &mut W, answer: &Answer) -> Result<(), Failed>
    requires { answer.now.act ≡ Data }
    ensures { Writes W.Sink result (out.old, buffer.old) (out.new, buffer.new) (answer_line answer.now) }
{
    if answer.by_digest {
        write_sum(buffer, out, &answer.digest)
    } else {
        write_data(buffer, out, answer.bytes.bytes())
    }
}

/// Writes the reply lines to calls that were answered so.
fn write_answers<W: Sink>(
    buffer: &mut Buffer,
    out: &mut W,
    answers: &[Answer],
) -> Result<(), Failed>
    ensures { Writes W.Sink result (out.old, buffer.old) (out.new, buffer.new) (flat_map answer_line answers.now) }
{
    for answer in answers {
        write_answer(buffer, out, answer)?;
    }
    Ok(())
}

/// Writes the reply lines of the caller with this number.
fn write_answers_of<W: Sink>(
    buffer: &mut Buffer,
    out: &mut W,
    replies: &[Replies],
    number: u32,
) -> Result<(), Failed>
    ensures { Writes W.Sink result (out.old, buffer.old) (out.new, buffer.new) (flat_map answer_line (answers_by replies.now number)) }
{
    match replies.get(number as usize) {
        Some(replies) => write_answers(buffer, out, &replies.answers),
        None => Ok(()),
    }
}

/// Writes the line of a session, and its replies.
fn write_replies<W: Sink>(
    buffer: &mut Buffer,
    out: &mut W,
    replies: &[Replies],
    number: u32,
) -> Result<(), Failed>
    ensures { Writes W.Sink result (out.old, buffer.old) (out.new, buffer.new) (numbered_replies replies.now number) }
{
    write_session(buffer, out, number)?;
    write_answers_of(buffer, out, replies, number)
}

/// Writes the line of each session, and its replies.
fn write_sessions<W: Sink>(
    buffer: &mut Buffer,
    out: &mut W,
    replies: &[Replies],
    numbers: &[u32],
) -> Result<(), Failed>
    ensures { Writes W.Sink result (out.old, buffer.old) (out.new, buffer.new) (flat_map (numbered_replies replies.now) numbers.now) }
{
    for number in numbers {
        write_replies(buffer, out, replies, *number)?;
    }
    Ok(())
}

/// Writes what a run says, and flushes it. After a failure the sink has a beginning of it. No memory is taken.
fn write_run<W: Sink>(
    mut buffer: Buffer,
    out: &mut W,
    numbers: &[u32],
    replies: &[Replies],
    journal: &Journal,
) -> Result<(), Failed>
    requires { buffer ≡ [] }
    ensures { Delivers W.Sink result out.old out.new (run_lines numbers.now replies.now journal.now.lines) }
{
    write_sessions(&mut buffer, out, replies, numbers)?;
    write_history(&mut buffer, out, journal)?;
    buffer.finish(out)
}

/// Writes the text of a run and gives the status that comes of it.
pub(crate) fn write_text<W: Sink>(out: &mut W, ran: Ran) -> u8
    requires { ran.buffer ≡ [] }
    ensures status { (result ≡ DONE) ⊎ (result ≡ WRITE_FAULT) }
    ensures done { result ≡ DONE → GotAll W.Sink out.old out.new (run_lines ran.numbers.items ran.run.replies.items ran.run.journal.lines) }
    ensures cut_short { result ≡ WRITE_FAULT → GotPart W.Sink out.old out.new (run_lines ran.numbers.items ran.run.replies.items ran.run.journal.lines) }
{
    let Ran {
        numbers,
        run: ScriptRun { replies, journal },
        buffer,
    } = ran;
    match write_run(buffer, out, &numbers, &replies, &journal) {
        Ok(()) => DONE,
        Err(_) => WRITE_FAULT,
    }
}
