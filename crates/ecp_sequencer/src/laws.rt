//! Laws of the definitions. Each is a function with an empty body, whose contract is the law.

ghost use Rattle.std.specs.Prelude.{◌≡◌, ℕ, ◌<◌, All, List, [], ◌∷◌, ◌++◌, take, drop, slice_get, Some};
ghost use mathlib.Core.List.{IsPrefix};
ghost use Rattle.ecp_book.specs.Logs.{Log};
ghost use Rattle.ecp_entry.specs.declared.entry.Entry.{Entry};
ghost use Rattle.ecp_entry.specs.Told.{items_by, by_hand, made_from};
ghost use Rattle.ecp_sequencer.specs.Notes.{Call, note, point_of, says_of, beginning_of, call_from};
ghost use Rattle.ecp_sequencer.specs.Facts.{no_facts, after_note, facts_of, entries_noted};
ghost use Rattle.ecp_sequencer.specs.Histories.{Stands};
ghost use Rattle.ecp_sequencer.specs.Passes.{IsWhole, PassState, first_pass};
ghost use Rattle.ecp_sequencer.specs.Steps.{Steps};

/// What is known of a hand grows note by note.
pub fn facts_grow_note_by_note()
    ensures none { facts_of [] ≡ no_facts }
    ensures more { (notes : Log) (x : List ℕ) → facts_of (notes ++ x ∷ []) ≡ after_note (facts_of notes) x }
{}

/// A note that a call began gives the call back.
pub fn calls_are_read_back()
    ensures { (c : Call) (point room : ℕ) → call_from (says_of (note point room (beginning_of c))) ≡ c }
{}

/// Of a history that has just what a hand noted, the entries from a note on stand at its point or behind it: so each entry
/// of a call stands past the point at which the call began.
pub fn entries_stand_past_the_notes_before_them()
    ensures { (history notes : Log) (hand i : ℕ) (x : List ℕ) → Stands history hand notes → slice_get notes i ≡ Some x →
        entries_noted notes ≡ entries_noted (take i notes) ++ items_by hand (drop (point_of x) history) }
{}

/// A call with nothing noted since it began has no entry: those of its hand are of calls with smaller numbers.
pub fn a_call_that_began_has_no_entry()
    ensures { (history notes : Log) (hand : ℕ) (c : Call) →
        Stands history hand notes → (facts_of notes).call ≡ Some c → (facts_of notes).since ≡ [] →
        All (λ x. (made_from x).entry.line.call < c.number) (entries_noted notes) }
{}

/// A pass that knows its own entries and does nothing steps.
pub fn passes_may_stand()
    ensures { (v : PassState) → items_by v.hand v.front ≡ entries_noted v.notes → Steps v [] [] v }
{}

/// Steps one behind another are steps.
pub fn steps_go_on()
    ensures { (u v w : PassState) (mine theirs : List Entry) (more others : Log) →
        Steps u mine more v → Steps v theirs others w → Steps u (mine ++ theirs) (more ++ others) w }
{}

/// What a raised pass does, the pass did before it was raised.
pub fn raised_passes_step_on()
    ensures { (u w : PassState) (front : Log) (mine : List Entry) (more : Log) →
        IsPrefix u.front front → IsPrefix (entries_noted u.notes) (items_by u.hand u.front) →
        Steps (record u { front = front }) mine more w → Steps u mine more w }
{}

/// The entries of a step are the hand's own beyond the old front.
pub fn steps_add_just_their_entries()
    ensures { (v w : PassState) (mine : List Entry) (more : Log) →
        Steps v mine more w → by_hand v.hand w.front ≡ by_hand v.hand v.front ++ mine }
{}

/// A pass is whole as it is made, and what it does leaves it whole.
pub fn passes_stay_whole()
    ensures first { (spares caller : ℕ) → IsWhole (first_pass spares caller) }
    ensures steps { (v w : PassState) (mine : List Entry) (more : Log) → Steps v mine more w → IsWhole v → IsWhole w }
{}
