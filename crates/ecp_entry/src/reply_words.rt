ghost use Rattle.std.specs.Prelude.{◌≡◌, ◌+◌, ◌≤◌, [], ◌∷◌, ◌++◌, decimal, length, take};
ghost use Rattle.std.specs.List.{join_with_byte};
ghost use Rattle.ecp_entry.specs.ReplyText.{ended_words, reply_of, reply_start};
ghost use Rattle.ecp_text.specs.Words.{spaced};

use crate::act::Act;
use crate::act_words::{ACT_ROOM, TEXT_ROOM, put_act, put_act_numbers};
use crate::deed::Deed;
use crate::reply::Reply;
use ecp_text::LineBuffer;
use ecp_text::bytes::{LINE_ROOM, NUMBER_ROOM, SPACE};

/// The reply to a call with this deed, by the act that ended it. For a `cat`, `len` is the length in its
/// `Opened`, and `cause` is the act of its last part; other calls have no use for them.
pub fn reply_to(deed: &Deed, act: &Act, len: u32, cause: &Act) -> Reply
    ensures { result ≡ reply_of deed.now act.now len cause.now }
{
    match (deed, act) {
        (Deed::Sum { .. }, Act::Data) => Reply::Sum,
        (_, Act::Data) => Reply::Data,
        (_, Act::Whole) => Reply::File { len },
        (_, Act::Broken(index)) => Reply::Broken {
            index: *index,
            cause: *cause,
        },
        (_, ended) => Reply::Ended(*ended),
    }
}

/// Puts a reply line into the front of `out`, up to its hexadecimal, or with its line end where it has
/// none, and answers its length in bytes. What stood behind it in `out` is of no use afterwards.
///
/// Behind the start of a `Data`, `Sum` or `File` reply the caller writes the bytes of the block, or the
/// digest, in lower-case hexadecimal, and a line end.
pub fn reply_text(reply: &Reply, out: &mut [u8; LINE_ROOM]) -> usize
    ensures short { result ≤ TEXT_ROOM }
    ensures text { take result out.new ≡ reply_start reply.now }
{
    let mut text = LineBuffer::new();
    put_reply(&mut text, reply);
    text.copy_to(out)
}

/// Puts a reply line behind what `out` holds, up to its hexadecimal, or with its line end where it has none. What the
/// caller writes behind it is as with [`reply_text`].
pub fn put_reply(out: &mut LineBuffer, reply: &Reply)
    requires { length out.old + TEXT_ROOM ≤ LINE_ROOM }
    ensures text { out.new ≡ out.old ++ reply_start reply.now }
    ensures within { length out.new ≤ length out.old + TEXT_ROOM }
{
    match reply {
        Reply::Ended(act) => {
            put_ended(out, act);
            out.end_line();
        }
        Reply::Data => out.put(b"data "),
        Reply::Sum => out.put(b"sum "),
        Reply::File { len } => {
            out.put(b"file");
            out.put_number(*len);
            out.put(b" ");
        }
        Reply::Broken { index, cause } => {
            out.put(b"broken");
            out.put_number(*index);
            put_act(out, cause);
            out.end_line();
        }
    }
}

/// Puts the words of the act that ended a call.
fn put_ended(out: &mut LineBuffer, act: &Act)
    requires { length out.old + ACT_ROOM ≤ LINE_ROOM }
    ensures text { out.new ≡ out.old ++ join_with_byte SPACE (ended_words act.now) }
    ensures within { length out.new ≤ length out.old + ACT_ROOM }
{
    out.put(act.word());
    match act {
        Act::Stored { first, stripes, .. } => out.put_numbers(&[*first, *stripes]),
        Act::Rebuilt {
            restored,
            live,
            clash,
            gone,
            failed,
            unsteady,
            down,
        } => {
            out.put_number(*restored);
            put_count(out, b"live", *live);
            put_count(out, b"clash", *clash);
            put_count(out, b"gone", *gone);
            put_count(out, b"failed", *failed);
            put_count(out, b"unsteady", *unsteady);
            put_count(out, b"down", *down);
        }
        _ => put_act_numbers(out, act),
    }
}

/// Puts a word and a number, each behind a space.
fn put_count(out: &mut LineBuffer, word: &[u8], count: u32)
    requires { length out.old + (length word.now + (NUMBER_ROOM + 1)) ≤ LINE_ROOM }
    ensures text { out.new ≡ out.old ++ spaced (word.now ∷ decimal count ∷ []) }
    ensures within { length out.new ≤ length out.old + (length word.now + (NUMBER_ROOM + 1)) }
{
    out.put_word(word);
    out.put_number(count);
}
