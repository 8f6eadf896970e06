//! Laws of the definitions. Each is a function with an empty body, whose contract is the law.

ghost use Rattle.std.specs.Prelude.{◌≡◌, []};
ghost use Rattle.ecp_book.specs.Logs.{Log};
ghost use Rattle.ecp_entry.specs.Told.{history_of, items_by};
ghost use Rattle.ecp_plan.specs.declared.plan.Plan.{Plan};
ghost use Rattle.ecp_sequencer.specs.Facts.{entries_noted};
ghost use Rattle.ecp_sequencer.specs.Passes.{PassState};
ghost use Rattle.ecp_sequencer.specs.Steps.{Steps};
ghost use Rattle.ecp_coord.specs.declared.replanned.Replanned.{Replanned};
ghost use Rattle.ecp_coord.specs.Coords.{CoordState};
ghost use Rattle.ecp_coord.specs.Plans.{Did, IsPlanned, found_by_replanning};
ghost use Rattle.ecp_requestor.specs.Crews.{Replans};
ghost use Rattle.ecp_requestor.specs.Fetching.{GoesOn};

use ecp_book::Names;

/// The coordinator's event, for a plan of the pass, is what a crew promises: so a crew may have a coordinator behind a lock.
pub fn the_coordinators_event_is_a_crews<N: Names>()
    ensures { (s t : CoordState) (v w : PassState) (old new : Plan N) (answer : Replanned) →
        IsPlanned N.shape N.told v old → answer ≡ found_by_replanning N.shape (history_of s.sequence.history) old →
        Did N.shape N.told s v old new t w answer → Replans N.shape N.told v old new w answer }
{}

/// A pass that went on took steps, where its front had of its hand just what that noted.
pub fn passes_that_go_on_took_steps()
    ensures { (v w : PassState) → items_by v.hand v.front ≡ entries_noted v.notes → GoesOn v w → (more : Log) × Steps v [] more w }
{}
