//! Laws of catalogs. Each is a function with an empty body, whose contract is the law.

ghost use Rattle.std.specs.Prelude.{◌≡◌, ℕ, ◌+◌, ◌*◌, ◌<◌, ◌≤◌, Bool, true, false, List, [], ◌∷◌, ◌++◌, All, Option, Some, None, drop, length, map, nat_eq, option_map, slice_get};
ghost use Rattle.std.specs.List.{IsDistinct, position_from};
ghost use Rattle.ecp_shape.specs.Range.{IsInRange};
ghost use Rattle.ecp_shape.specs.declared.shape.Shape.{Shape};
ghost use Rattle.ecp_node.specs.Receipts.{ReceiptState};
ghost use Rattle.ecp_entry.specs.declared.act.Act.TheVariants.{Joined, Restored, Stored};
ghost use Rattle.ecp_entry.specs.declared.entry.Entry.{Entry};
ghost use Rattle.ecp_entry.specs.Entries.{deed_node, is_loss, loss_of};
ghost use Rattle.ecp_history.specs.Acts.{AreFresh};
ghost use Rattle.ecp_history.specs.Legal.{IsLegal, MayFollow};
ghost use Rattle.ecp_history.specs.Named.{block_at};
ghost use Rattle.ecp_history.specs.declared.table.block_name.BlockName.{BlockName};
ghost use Rattle.ecp_history.specs.table.Tables.{file_of, inc_of, is_down, is_live, is_up, live_rows, lost_on, up_count, up_mask};
ghost use Rattle.ecp_history.specs.table.Steps.{table_of};
ghost use Rattle.ecp_catalog.specs.Standing.{file_with, live_among, standing};
ghost use Rattle.ecp_catalog.specs.Kept.{rows_stored};
ghost use Rattle.ecp_catalog.specs.Catalogs.{CatalogState, Reserves, Stores, changed_at, empty, files_of, first_loss, is_live_in, is_lost_in, joined_node, live_of, losses_of, lost_at, plain, standings_of, with_spare};
ghost use Rattle.ecp_catalog.specs.LostBlocks.{lost_in, task_of, tasks_of};
ghost use Rattle.ecp_catalog.specs.Outline.{AreKept, IsOutline, TakesBlock, TakesFile, changes, file_stored};

/// The catalog at the start is the outline of the empty history.
pub fn the_start_is_an_outline()
    ensures { (shape : Shape) (told : Bool) → IsOutline shape told (empty shape) [] }
{}

/// Room is no part of an outline: to reserve leaves it.
pub fn room_is_no_part()
    ensures files { (shape : Shape) (told : Bool) (old new : CatalogState) (history : List Entry) (name : List ℕ) (hands : ℕ) →
        IsOutline shape told old history → Reserves (files_of old) (files_of new) name hands → new.nodes ≡ old.nodes →
        IsOutline shape told new history }
    ensures losses { (shape : Shape) (told : Bool) (c : CatalogState) (history : List Entry) (m hands : ℕ) →
        IsOutline shape told c history →
        IsOutline shape told (record c { nodes = changed_at (with_spare hands) m c.nodes }) history }
{}

/// An entry that changes nothing leaves the outline.
pub fn most_entries_leave_the_outline()
    ensures { (shape : Shape) (told : Bool) (c : CatalogState) (history : List Entry) (e : Entry) →
        IsOutline shape told c history → changes e.line.act ≡ false → IsOutline shape told c (history ++ e ∷ []) }
{}

/// After the loss of a node, the catalog that lost it at the loss's position is the outline.
pub fn a_loss_is_outlined()
    ensures outline { (shape : Shape) (told : Bool) (c : CatalogState) (history : List Entry) (e : Entry) (m : ℕ) →
        IsOutline shape told c history → loss_of e ≡ Some m →
        IsOutline shape told (record c { nodes = changed_at (lost_at (length history)) m c.nodes }) (history ++ e ∷ []) }
    ensures behind { (shape : Shape) (told : Bool) (c : CatalogState) (history : List Entry) (m : ℕ) →
        IsOutline shape told c history → m < length c.nodes → All (λ p. p < length history) (losses_of c.nodes m) }
{}

/// After a node that was down came up, the catalog in which it did is the outline. A node that is down came up less often
/// than the history has entries, since it was lost before each time and once more.
pub fn a_join_is_outlined()
    ensures outline { (shape : Shape) (told : Bool) (c : CatalogState) (history : List Entry) (e : Entry) (m : ℕ) →
        IsOutline shape told c history → is_up (plain c) m ≡ false → deed_node e.deed ≡ Some m → e.line.act ≡ Joined (inc_of (plain c) m + 1) →
        IsOutline shape told (record c { nodes = changed_at joined_node m c.nodes }) (history ++ e ∷ []) }
    ensures few { (shape : Shape) (told : Bool) (c : CatalogState) (history : List Entry) (m : ℕ) →
        IsLegal shape told history → IsOutline shape told c history → is_down (plain c) m ≡ true → inc_of (plain c) m + 1 ≤ length history }
{}

/// After an entry that stores a file, the catalog that stored it with the receipts of its rows is the outline.
pub fn a_stored_file_is_outlined()
    ensures { (shape : Shape) (told : Bool) (old new : CatalogState) (history : List Entry) (e : Entry) →
        TakesFile shape told old new history e → IsOutline shape told new (history ++ e ∷ []) }
{}

/// After an entry that restores a block, the catalog that took the block's receipt is the outline. It may take it: the row
/// is lost, the receipt's node is up in its incarnation, and no node has as many live blocks as were stored, where one of
/// them is lost.
pub fn a_restored_block_is_outlined()
    ensures outline { (shape : Shape) (told : Bool) (old new : CatalogState) (history : List Entry) (e : Entry) →
        TakesBlock shape told old new history e → IsOutline shape told new (history ++ e ∷ []) }
    ensures lost { (shape : Shape) (told : Bool) (c : CatalogState) (history : List Entry) (e : Entry) (s r m inc : ℕ) →
        IsOutline shape told c history → MayFollow shape told history e → e.line.act ≡ Restored s r m inc → is_lost_in c s r ≡ true }
    ensures up { (shape : Shape) (told : Bool) (c : CatalogState) (history : List Entry) (e : Entry) (x : ReceiptState) →
        IsLegal shape told history → IsOutline shape told c history → MayFollow shape told history e →
        e.line.act ≡ Restored x.stripe x.row x.node x.inc → (standing (plain c).nodes x).live ≡ true }
    ensures few { (shape : Shape) (told : Bool) (c : CatalogState) (history : List Entry) (s r m : ℕ) →
        IsLegal shape told history → IsOutline shape told c history → is_lost_in c s r ≡ true →
        live_of c.nodes m < rows_stored c.shape c.files }
{}

/// No file of a legal history's outline has a stripe number that no entry has stored.
pub fn fresh_numbers_are_free()
    ensures { (shape : Shape) (told : Bool) (c : CatalogState) (history : List Entry) (first count s : ℕ) →
        IsLegal shape told history → IsOutline shape told c history → AreFresh history first count →
        first ≤ s → s < first + count → file_with c.files s ≡ None }
{}

/// An outline says of files what the table says.
pub fn files_are_the_tables()
    ensures file { (shape : Shape) (told : Bool) (c : CatalogState) (history : List Entry) (name : List ℕ) →
        IsOutline shape told c history → file_of (plain c) name ≡ file_of (table_of shape history) name }
    ensures block { (shape : Shape) (told : Bool) (c : CatalogState) (history : List Entry) (name : List ℕ) (j : ℕ) →
        IsOutline shape told c history → block_at shape (plain c) name j ≡ block_at shape (table_of shape history) name j }
{}

/// An outline says of rows what the table says.
pub fn rows_are_the_tables()
    ensures live { (shape : Shape) (told : Bool) (c : CatalogState) (history : List Entry) (s r : ℕ) →
        IsOutline shape told c history → is_live_in c s r ≡ is_live (table_of shape history) s r }
    ensures count { (shape : Shape) (told : Bool) (c : CatalogState) (history : List Entry) (s : ℕ) →
        IsOutline shape told c history → length (live_among (standings_of c s)) ≡ live_rows (table_of shape history) s }
    ensures there { (shape : Shape) (told : Bool) (c : CatalogState) (history : List Entry) (s : ℕ) →
        IsOutline shape told c history →
        All (λ x. (x.row < shape.n) × (is_live (table_of shape history) s x.row ≡ true) × (is_up (plain c) x.node ≡ true)) (live_among (standings_of c s)) }
{}

/// An outline says which blocks are lost on a node as the table says it, in the same order.
pub fn lost_blocks_are_the_tables()
    ensures { (shape : Shape) (told : Bool) (c : CatalogState) (history : List Entry) (m : ℕ) →
        IsOutline shape told c history → lost_in c m ≡ lost_on (table_of shape history) m }
{}

/// There is one task for each block, in their order: task j, from 0, is of part j + 1.
pub fn tasks_are_those_of_the_blocks()
    ensures count { (blocks : List BlockName) → length (tasks_of blocks) ≡ length blocks }
    ensures each { (blocks : List BlockName) (j : ℕ) → slice_get (tasks_of blocks) j ≡ option_map (task_of (j + 1)) (slice_get blocks j) }
{}

/// An outline says of nodes what the table says.
pub fn nodes_are_the_tables()
    ensures mask { (shape : Shape) (told : Bool) (c : CatalogState) (history : List Entry) →
        IsOutline shape told c history → up_mask (plain c) ≡ up_mask (table_of shape history) }
    ensures count { (shape : Shape) (told : Bool) (c : CatalogState) (history : List Entry) →
        IsOutline shape told c history → up_count (plain c) ≡ up_count (table_of shape history) }
    ensures up { (shape : Shape) (told : Bool) (c : CatalogState) (history : List Entry) (m : ℕ) →
        IsOutline shape told c history → is_up (plain c) m ≡ is_up (table_of shape history) m }
    ensures inc { (shape : Shape) (told : Bool) (c : CatalogState) (history : List Entry) (m : ℕ) →
        IsOutline shape told c history → inc_of (plain c) m ≡ inc_of (table_of shape history) m }
{}

/// The first loss of a node from a position on stands where the history has it.
pub fn losses_are_the_historys()
    ensures { (shape : Shape) (told : Bool) (c : CatalogState) (history : List Entry) (m point : ℕ) →
        IsOutline shape told c history → m < length c.nodes →
        first_loss c.nodes point m ≡ position_from (is_loss m) point (drop point history) }
{}

/// The live rows of a stripe are distinct, and by a legal history no two of them are on one node: the helpers of a plan can
/// be picked from them.
pub fn live_rows_stand_apart()
    ensures rows { (c : CatalogState) (s : ℕ) → IsDistinct nat_eq (map (λ x. x.row) (live_among (standings_of c s))) }
    ensures nodes { (shape : Shape) (told : Bool) (c : CatalogState) (history : List Entry) (s : ℕ) →
        IsInRange shape → IsLegal shape told history → IsOutline shape told c history →
        IsDistinct nat_eq (map (λ x. x.node) (live_among (standings_of c s))) }
{}
