//! How an event makes the entry of a part of a call, whatever the call asks for.
ghost use Rattle.std.specs.Prelude.{◌≡◌, false};
ghost use Rattle.ecp_entry.specs.declared.deed.Deed.{Deed};
ghost use Rattle.ecp_entry.specs.Told.{history_of};
ghost use Rattle.ecp_history.specs.Files.{is_stored};
ghost use Rattle.ecp_history.specs.Legal.{MayFollow};
ghost use Rattle.ecp_sequencer.specs.Sequencers.{Agrees};
ghost use Rattle.ecp_coord.specs.Calls.{EndsBy, HasOpen, IsOpen, closing};

use crate::Pass;
use ecp_book::{Book, Names};
use ecp_entry::{Act, Line, Part};
use ecp_sequencer::{EntryRef, Sequencer};

/// Adds the entry of this part of the pass's open call, with this act, which stores no file, and these bytes. It speaks of
/// the history at this point. That of the end ends the call.
pub(crate) fn end_with<N: Names>(
    sequencer: &mut Sequencer<N>,
    book: &Book<N>,
    pass: &mut Pass<N>,
    part: Part,
    point: u32,
    act: Act,
    bytes: &[u8],
)
    requires agree { Agrees sequencer.old pass.old }
    requires has_open { HasOpen pass.old }
    requires stores { is_stored act ≡ false }
    requires follows { (asked : Deed) → IsOpen pass.old asked → MayFollow N.shape N.told (history_of sequencer.old.history) (closing pass.old asked part point act bytes.now) }
    ensures { EndsBy N.shape N.told sequencer.old pass.old part point act bytes.now sequencer.new pass.new }
{
    let entry = EntryRef {
        line: Line {
            caller: pass.caller(),
            call: pass.calls() - 1,
            part,
            point,
            act,
        },
        deed: pass.deed(),
        bytes,
    };
    sequencer.enter(book, pass, &entry);
}
