//! How an event enters a part of a call.
ghost use Rattle.std.specs.Prelude.{length};
ghost use Rattle.ecp_entry.specs.Told.{history_of};
ghost use Rattle.ecp_history.specs.Legal.{MayFollow};
ghost use Rattle.ecp_sequencer.specs.Sequencers.{Agrees};
ghost use Rattle.ecp_coord.specs.Calls.{Enters, IsOpen, part_of};

use crate::Pass;
use ecp_book::{Book, Names};
use ecp_entry::{Act, Deed, Line, Part};
use ecp_sequencer::{EntryRef, Sequencer};

/// Adds the entry of this part of the pass's open call, which asks for `deed`, with this act. It speaks of its own
/// position and has no bytes.
pub(crate) fn enter_part<N: Names>(
    sequencer: &mut Sequencer<N>,
    book: &Book<N>,
    pass: &mut Pass<N>,
    deed: Deed,
    part: u32,
    act: Act,
)
    requires agree { Agrees sequencer.old pass.old }
    requires open { IsOpen pass.old deed }
    requires follows { MayFollow N.shape N.told (history_of sequencer.old.history) (part_of pass.old deed part (length sequencer.old.history) act) }
    ensures { Enters N.shape N.told sequencer.old pass.old deed part act sequencer.new pass.new }
{
    let entry = EntryRef {
        line: Line {
            caller: pass.caller(),
            call: pass.calls() - 1,
            part: Part::Part(part),
            point: sequencer.len(),
            act,
        },
        deed: Some(deed),
        bytes: &[],
    };
    sequencer.enter(book, pass, &entry);
}
