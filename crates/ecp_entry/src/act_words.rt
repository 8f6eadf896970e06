//! The words of an act, in the journal and in the replies.

ghost use Rattle.std.specs.Prelude.{◌≡◌, ◌+◌, ◌≤◌, [], ◌∷◌, ◌++◌, decimal, length, map};
ghost use Rattle.ecp_entry.specs.Entries.{act_numbers};
ghost use Rattle.ecp_entry.specs.JournalText.{act_words};
ghost use Rattle.ecp_text.specs.Words.{spaced};

use crate::act::Act;
use ecp_shape::limits::MAX_ATTEMPTS;
use ecp_text::LineBuffer;
use ecp_text::bytes::{LINE_ROOM, NUMBER_ROOM};

/// How many bytes a line of the journal has at most, and a reply up to its hexadecimal.
pub const TEXT_ROOM: usize = 400;

/// How many bytes the positions that overtook the attempts have at most, each with the space before it.
const POSITIONS_ROOM: usize = MAX_ATTEMPTS as usize * NUMBER_ROOM;

/// How many bytes the numbers of an act have at most, each with the space before it: a block and such positions.
pub(crate) const NUMBERS_ROOM: usize = 2 * NUMBER_ROOM + POSITIONS_ROOM;

/// How many bytes the word for an act has at most, with the space before it.
const WORD_ROOM: usize = 15;

/// How many bytes the words of an act have at most, each with the space before it.
pub(crate) const ACT_ROOM: usize = WORD_ROOM + NUMBERS_ROOM;

/// Puts the words of an act, each behind a space.
pub(crate) fn put_act(out: &mut LineBuffer, act: &Act)
    requires { length out.old + ACT_ROOM ≤ LINE_ROOM }
    ensures text { out.new ≡ out.old ++ spaced (act_words act.now) }
    ensures within { length out.new ≤ length out.old + ACT_ROOM }
{
    out.put_word(act.word());
    put_act_numbers(out, act);
}

/// Puts the numbers of an act, each behind a space.
pub(crate) fn put_act_numbers(out: &mut LineBuffer, act: &Act)
    requires { length out.old + NUMBERS_ROOM ≤ LINE_ROOM }
    ensures text { out.new ≡ out.old ++ spaced (map decimal (act_numbers act.now)) }
    ensures within { length out.new ≤ length out.old + NUMBERS_ROOM }
{
    match act {
        Act::NameTaken
        | Act::Data
        | Act::NoSuchFile
        | Act::Whole
        | Act::NoSuchNode
        | Act::NodeDown
        | Act::NodeUp => {}
        Act::TooFewNodes(n)
        | Act::NoSuchBlock(n)
        | Act::Unrecoverable(n)
        | Act::Broken(n)
        | Act::Lost(n)
        | Act::Joined(n)
        | Act::Listed(n)
        | Act::NoNode(n)
        | Act::TargetDown(n) => out.put_number(*n),
        Act::StoreFailed(node) => out.put_number(u32::from(*node)),
        Act::Unsteady(positions) => put_positions(out, positions),
        Act::Stored { first, stripes, up } => out.put_numbers(&[*first, *stripes, *up]),
        Act::Opened { len, count, first } => out.put_numbers(&[*len, *count, *first]),
        Act::Stat { len, count, live } => out.put_numbers(&[*len, *count, *live]),
        Act::Rebuilt {
            restored,
            live,
            clash,
            gone,
            failed,
            unsteady,
            down,
        } => out.put_numbers(&[*restored, *live, *clash, *gone, *failed, *unsteady, *down]),
        Act::Restored {
            stripe,
            row,
            node,
            inc,
        } => out.put_numbers(&[*stripe, u32::from(*row), u32::from(*node), *inc]),
        Act::AlreadyLive { stripe, row } | Act::Drop { stripe, row } => {
            out.put_numbers(&[*stripe, u32::from(*row)]);
        }
        Act::Clash { stripe, row, other } => {
            out.put_numbers(&[*stripe, u32::from(*row), u32::from(*other)]);
        }
        Act::Gone { stripe, row, live } => out.put_numbers(&[*stripe, u32::from(*row), *live]),
        Act::MendFailed { stripe, row, node } | Act::MendDown { stripe, row, node } => {
            out.put_numbers(&[*stripe, u32::from(*row), u32::from(*node)]);
        }
        Act::MendUnsteady { stripe, row, at } => {
            out.put_numbers(&[*stripe, u32::from(*row)]);
            put_positions(out, at);
        }
    }
}

/// Puts the positions that overtook the attempts, each behind a space.
fn put_positions(out: &mut LineBuffer, positions: &[u32; MAX_ATTEMPTS as usize])
    requires { length out.old + POSITIONS_ROOM ≤ LINE_ROOM }
    ensures text { out.new ≡ out.old ++ spaced (map decimal positions.now) }
    ensures within { length out.new ≤ length out.old + POSITIONS_ROOM }
{
    out.put_numbers(positions);
}
