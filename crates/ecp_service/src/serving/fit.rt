//! The numbers of a journal are those of the machine, so a line's text has room for each. Nothing is done: these functions
//! say it to contracts.
ghost use Rattle.std.specs.Prelude.{◌^◌, ◌<◌, All};
ghost use Rattle.ecp_entry.specs.Entries.{act_numbers, part_numbers};
ghost use Rattle.ecp_entry.specs.JournalText.{line_numbers};
ghost use Rattle.ecp_service.specs.Printed.{ArePrintable};

use ecp_entry::{Act, Line, Part};
use ecp_history::Journal;

/// Each line has numbers of 32 bits, and there are fewer lines than such a number counts.
pub(super) fn lines_fit(journal: &Journal)
    ensures { ArePrintable journal.now.lines }
{
    for at in 0..journal.len() {
        line_fits(journal.line(at));
    }
}

fn line_fits(line: &Line)
    ensures { All (λ n. n < 2 ^ 32) (line_numbers line.now) }
{
    numbers_fit(&[u32::from(line.caller), line.call, line.point]);
    part_fits(&line.part);
    act_fits(&line.act);
}

fn part_fits(part: &Part)
    ensures { All (λ n. n < 2 ^ 32) (part_numbers part.now) }
{
    match part {
        Part::Part(j) => numbers_fit(&[*j]),
        Part::End => {}
    }
}

fn act_fits(act: &Act)
    ensures { All (λ n. n < 2 ^ 32) (act_numbers act.now) }
{
    match act {
        Act::NameTaken
        | Act::Data
        | Act::NoSuchFile
        | Act::Whole
        | Act::NoSuchNode
        | Act::NodeDown
        | Act::NodeUp => {}
        Act::TooFewNodes(count)
        | Act::NoSuchBlock(count)
        | Act::Unrecoverable(count)
        | Act::Broken(count)
        | Act::Lost(count)
        | Act::Joined(count)
        | Act::Listed(count)
        | Act::NoNode(count)
        | Act::TargetDown(count) => numbers_fit(&[*count]),
        Act::StoreFailed(node) => numbers_fit(&[u32::from(*node)]),
        Act::Stored { first, stripes, up } => numbers_fit(&[*first, *stripes, *up]),
        Act::Opened { len, count, first } => numbers_fit(&[*len, *count, *first]),
        Act::Stat { len, count, live } => numbers_fit(&[*len, *count, *live]),
        Act::Unsteady(at) => numbers_fit(at),
        Act::MendUnsteady { stripe, row, at } => {
            numbers_fit(&[*stripe, u32::from(*row)]);
            numbers_fit(at);
        }
        Act::AlreadyLive { stripe, row } | Act::Drop { stripe, row } => {
            numbers_fit(&[*stripe, u32::from(*row)]);
        }
        Act::Clash { stripe, row, other } => {
            numbers_fit(&[*stripe, u32::from(*row), u32::from(*other)]);
        }
        Act::MendFailed { stripe, row, node } | Act::MendDown { stripe, row, node } => {
            numbers_fit(&[*stripe, u32::from(*row), u32::from(*node)]);
        }
        Act::Gone { stripe, row, live } => numbers_fit(&[*stripe, u32::from(*row), *live]),
        Act::Restored {
            stripe,
            row,
            node,
            inc,
        } => numbers_fit(&[*stripe, u32::from(*row), u32::from(*node), *inc]),
        Act::Rebuilt {
            restored,
            live,
            clash,
            gone,
            failed,
            unsteady,
            down,
        } => numbers_fit(&[*restored, *live, *clash, *gone, *failed, *unsteady, *down]),
    }
}

fn numbers_fit(numbers: &[u32])
    ensures { All (λ n. n < 2 ^ 32) numbers.now }
{}
