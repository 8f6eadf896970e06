//! Laws of the definitions. Each is a function with an empty body, whose contract is the law. Those of entries and of
//! what items tell are handed on from [`ecp_entry::laws`].

ghost use Rattle.std.specs.Prelude.{◌≡◌, ℕ, ◌+◌, ◌<◌, ◌≤◌, Bool, true, false, if◌then◌else◌, List, [], ◌∷◌, ◌++◌, Some};
ghost use Rattle.std.specs.List.{list_any};
ghost use Rattle.ecp_entry.specs.declared.entry.Entry.{Entry};
ghost use Rattle.ecp_entry.specs.declared.part.Part.TheVariants.{Part};
ghost use Rattle.ecp_shape.specs.Range.{IsInRange};
ghost use Rattle.ecp_shape.specs.declared.limits.TheConstants.{MAX_SESSIONS};
ghost use Rattle.ecp_shape.specs.declared.shape.Shape.{Shape};
ghost use Rattle.ecp_entry.specs.Entries.{brings, is_same_call, loss_of};
ghost use Rattle.ecp_entry.specs.Items.{item};
ghost use Rattle.ecp_entry.specs.Told.{history_of};
ghost use Rattle.ecp_history.specs.Fronts.{IsBlock, IsBlockIn};
ghost use Rattle.ecp_history.specs.Files.{StoresBytes, HasBytes};
ghost use Rattle.ecp_history.specs.Counted.{IsCounted, DropsCounted, spends_fault, faults_spent};
ghost use Rattle.ecp_history.specs.table.Tables.{PlainTable, HasStripe, block, data_of, live_on, live_rows};
ghost use Rattle.ecp_history.specs.table.Steps.{table_of};
ghost use Rattle.ecp_history.specs.Recoverable.{IsRecoverable};
ghost use Rattle.ecp_history.specs.Follows.{LooksBefore};
ghost use Rattle.ecp_history.specs.Legal.{IsLegal, MayFollow, TellsLegal};
ghost use Rattle.ecp_history.specs.Plans.{IsSoundPlan, Plan};

pub use ecp_entry::laws::{
    beginnings_tell_beginnings, each_hand_has_its_entries, items_are_read_back, items_differ,
    journal_lines_differ, losses_are_told, one_history_is_told, one_item_tells_one_entry,
};

/// A beginning of the items of a legal history tells a legal history, with which the whole begins.
pub fn legal_beginnings_are_told()
    ensures legal { (shape : Shape) (told : Bool) (front more : List (List ℕ)) →
        TellsLegal shape told (front ++ more) → TellsLegal shape told front }
    ensures history { (front more : List (List ℕ)) → history_of (front ++ more) ≡ history_of front ++ history_of more }
{}

/// The items of a legal history, and that of an entry that may follow, tell the legal history with this entry at its end.
/// If it stores a file, the file has bytes.
pub fn told_history_grows()
    ensures legal { (shape : Shape) (told : Bool) (items : List (List ℕ)) (hand : ℕ) (e : Entry) →
        TellsLegal shape told items → MayFollow shape told (history_of items) e → HasBytes e →
        TellsLegal shape told (items ++ item hand e ∷ []) }
    ensures history { (items : List (List ℕ)) (hand : ℕ) (e : Entry) →
        history_of (items ++ item hand e ∷ []) ≡ history_of items ++ e ∷ [] }
{}

/// The blocks of a history whose files have bytes are lists of bytes of the block's length.
pub fn blocks_are_bytes()
    ensures { (shape : Shape) (history : List Entry) (s r : ℕ) → IsInRange shape → StoresBytes history →
        HasStripe (table_of shape history) s → r < shape.n → IsBlock shape (block (table_of shape history) s r) }
{}

/// The block of a stripe in a front's table is that of every longer front's.
pub fn blocks_stay()
    ensures { (shape : Shape) (told : Bool) (xs more : List (List ℕ)) (s r : ℕ) (bytes : List ℕ) →
        IsBlockIn shape told xs s r bytes → TellsLegal shape told (xs ++ more) →
        IsBlockIn shape told (xs ++ more) s r bytes }
{}

/// A history is not legal where part 0 of a call stands behind another entry of that call.
pub fn no_call_begins_twice()
    ensures { (shape : Shape) (told : Bool) (before : List Entry) (e : Entry) →
        e.line.part ≡ Part 0 → list_any (is_same_call e) before ≡ true → ¬ IsLegal shape told (before ++ e ∷ []) }
{}

/// A legal history stays legal when an entry that may follow is added at its end.
pub fn legal_history_grows()
    ensures { (shape : Shape) (told : Bool) (history : List Entry) (e : Entry) →
        IsLegal shape told history → MayFollow shape told history e → IsLegal shape told (history ++ e ∷ []) }
{}

/// Every beginning of a legal history is legal.
pub fn beginnings_are_legal()
    ensures { (shape : Shape) (told : Bool) (history more : List Entry) →
        IsLegal shape told (history ++ more) → IsLegal shape told history }
{}

/// The last entry of a legal history may follow those before it.
pub fn last_entry_may_follow()
    ensures { (shape : Shape) (told : Bool) (history : List Entry) (e : Entry) →
        IsLegal shape told (history ++ e ∷ []) → MayFollow shape told history e }
{}

/// A stripe of the table stays, and its data are the same in every later table.
pub fn stripes_stay()
    ensures there { (shape : Shape) (told : Bool) (h more : List Entry) (s : ℕ) →
        IsLegal shape told (h ++ more) → HasStripe (table_of shape h) s → HasStripe (table_of shape (h ++ more)) s }
    ensures same_data { (shape : Shape) (told : Bool) (h more : List Entry) (s : ℕ) →
        IsLegal shape told (h ++ more) → HasStripe (table_of shape h) s →
        data_of (table_of shape (h ++ more)) s ≡ data_of (table_of shape h) s }
{}

/// A block is recoverable where k rows of its stripe are live.
pub fn live_rows_suffice()
    ensures { (shape : Shape) (t : PlainTable) (s r : ℕ) → shape.k ≤ live_rows t s → IsRecoverable shape t s r }
{}

/// No block is live on a lost node, whether it joins again or not, until a file is stored or a block is
/// restored onto it.
pub fn lost_blocks_stay_lost()
    ensures { (shape : Shape) (history more : List Entry) (e : Entry) (node : ℕ) →
        loss_of e ≡ Some node → list_any (λ x. brings node x.line.act) more ≡ false →
        live_on (table_of shape (history ++ e ∷ more)) node ≡ 0 }
{}

/// A history is not legal where the one entry of a call speaks of a point at or before an earlier entry of
/// the same caller, as a read would that looks at the table before its session's earlier call ended.
pub fn no_call_looks_before_its_callers_past()
    ensures { (shape : Shape) (told : Bool) (before : List Entry) (e x : Entry) (j : ℕ) →
        LooksBefore before e x j → ¬ IsLegal shape told (before ++ e ∷ []) }
{}

/// A sound plan stays sound as its front grows to a longer legal history.
pub fn sound_plans_stay()
    ensures { (shape : Shape) (told : Bool) (front more : List (List ℕ)) (plan : Plan) →
        IsSoundPlan shape told front plan → TellsLegal shape told (front ++ more) →
        IsSoundPlan shape told (front ++ more) plan }
{}

/// The entries of nodes stay counted when an entry is added at the end, if it is of a session, or counted itself.
pub fn counted_entries_grow()
    ensures { (shape : Shape) (history : List Entry) (e : Entry) → DropsCounted shape history →
        (MAX_SESSIONS ≤ e.line.caller → IsCounted shape history e) → DropsCounted shape (history ++ e ∷ []) }
{}

/// One entry more spends one fault of a node at most: where it says that the node's store failed.
pub fn each_entry_spends_its_fault()
    ensures { (node : ℕ) (history : List Entry) (e : Entry) →
        faults_spent node (history ++ e ∷ []) ≡ faults_spent node history + (if spends_fault node e then 1 else 0) }
{}
