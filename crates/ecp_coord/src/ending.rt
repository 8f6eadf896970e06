//! How an event ends a call.
ghost use Rattle.std.specs.Prelude.{◌≡◌, length};
ghost use Rattle.ecp_entry.specs.Told.{history_of};
ghost use Rattle.ecp_history.specs.Legal.{MayFollow};
ghost use Rattle.ecp_sequencer.specs.Sequencers.{Agrees};
ghost use Rattle.ecp_coord.specs.Calls.{Ends, IsOpen, ended};

use crate::Pass;
use ecp_book::{Book, Names};
use ecp_entry::{Act, Deed, Line, Part};
use ecp_sequencer::{EntryRef, Sequencer};

/// Adds the entry that ends the pass's open call, which asks for `deed`, with this act. It speaks of its own position and
/// has no bytes.
pub(crate) fn end_call<N: Names>(
    sequencer: &mut Sequencer<N>,
    book: &Book<N>,
    pass: &mut Pass<N>,
    deed: Deed,
    act: Act,
)
    requires agree { Agrees sequencer.old pass.old }
    requires open { IsOpen pass.old deed }
    requires follows { MayFollow N.shape N.told (history_of sequencer.old.history) (ended pass.old deed (length sequencer.old.history) act) }
    ensures { Ends N.shape N.told sequencer.old pass.old deed act sequencer.new pass.new }
{
    let entry = EntryRef {
        line: Line {
            caller: pass.caller(),
            call: pass.calls() - 1,
            part: Part::End,
            point: sequencer.len(),
            act,
        },
        deed: Some(deed),
        bytes: &[],
    };
    sequencer.enter(book, pass, &entry);
}
