//! Laws of the definitions. Each is a function with an empty body, whose contract is the law.

ghost use Rattle.std.specs.Prelude.{◌≡◌, ℕ, ◌^◌, ◌<◌, ◌==◌, All, if◌then◌else◌, List, [], ◌∷◌, ◌++◌, count_by};
ghost use Rattle.ecp_shape.specs.Losses.{losses};
ghost use Rattle.ecp_entry.specs.declared.entry.Entry.{Entry};
ghost use Rattle.ecp_entry.specs.declared.line.Line.{Line};
ghost use Rattle.ecp_entry.specs.Entries.{is_loss};
ghost use Rattle.ecp_entry.specs.Items.{item};
ghost use Rattle.ecp_entry.specs.Told.{Made, Tells, items_of, entries_of, made_of, by_hand};
ghost use Rattle.ecp_entry.specs.JournalText.{journal_line, line_numbers};

/// Different entries have different items, and so have entries of different hands.
pub fn items_differ()
    ensures { (g h : ℕ) (d e : Entry) → item g d ≡ item h e → (g ≡ h) × (d ≡ e) }
{}

/// A list of items tells one history, and one hand for each of its entries.
pub fn one_history_is_told()
    ensures { (items : List (List ℕ)) (g h : List Made) → Tells items g → Tells items h → g ≡ h }
{}

/// The items of entries are read back as these entries and their hands.
pub fn items_are_read_back()
    ensures { (items : List (List ℕ)) (made : List Made) → Tells items made → made_of items ≡ made }
{}

/// A beginning of telling items tells a beginning of the history, and the rest tells the rest.
pub fn beginnings_tell_beginnings()
    ensures { (front more : List (List ℕ)) (made : List Made) → Tells (front ++ more) made →
        Tells front (made_of front) × Tells more (made_of more) × (made ≡ made_of front ++ made_of more) }
{}

/// One item more tells one entry more.
pub fn one_item_tells_one_entry()
    ensures { (items : List (List ℕ)) (made : List Made) (m : Made) →
        Tells items made → Tells (items ++ item m.hand m.entry ∷ []) (made ++ m ∷ []) }
{}

/// One item more is one entry more of the hand that made it, and none of another.
pub fn each_hand_has_its_entries()
    ensures { (hand h : ℕ) (e : Entry) (items : List (List ℕ)) →
        by_hand hand (items ++ item h e ∷ [])
        ≡ (if h == hand then by_hand hand items ++ e ∷ [] else by_hand hand items) }
{}

/// The losses of a node among the items are those among the entries.
pub fn losses_are_told()
    ensures { (node : ℕ) (made : List Made) → losses node (items_of made) ≡ count_by (is_loss node) (entries_of made) }
{}

/// No two different lines at one position have one text: the printed journal is that of one journal.
pub fn journal_lines_differ()
    ensures { (at : ℕ) (a b : Line) → at < 2 ^ 32 →
        All (λ n. n < 2 ^ 32) (line_numbers a) → All (λ n. n < 2 ^ 32) (line_numbers b) →
        journal_line at a ≡ journal_line at b → a ≡ b }
{}
