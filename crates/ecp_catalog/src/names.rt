//! Which names are entered, and which file each leads to.

ghost use Rattle.std.specs.Prelude.{◌≡◌, ℕ, ◌||◌, if◌then◌else◌, List, Some, true, bytes_eq, OnErr, OnOk};
ghost use Rattle.std.specs.BTreeMap.{get, keys};
ghost use Rattle.ecp_history.specs.table.Kept.{name_cmp};
ghost use Rattle.ecp_catalog.specs.Catalogs.{is_entered};
ghost use Rattle.ecp_catalog.specs.Kept.{joined};

use ecp_entry::Name;
use ecp_store::NoMemory;
use std::collections::BTreeMap;

/// For each entered name, the index of its file, if it has one.
pub(crate) type NameMap = BTreeMap<Name, Option<usize>>;

/// Enters a name. One that is entered stays so, with its file. A refusal changes nothing.
pub(crate) fn enter(names: &mut NameMap, name: Name) -> Result<(), NoMemory>
    ensures leads { (q : List ℕ) → joined (get name_cmp names.new q) ≡ joined (get name_cmp names.old q) }
    ensures entered { OnOk result ((q : List ℕ) → is_entered (keys names.new) q ≡ (bytes_eq name q || is_entered (keys names.old) q)) }
    ensures err { OnErr result (names.new.entries ≡ names.old.entries) }
{
    if !names.contains_key(&name) {
        names.insert(name, None)?;
    }
    Ok(())
}

/// An entered name leads to this file. Takes no memory.
pub(crate) fn lead(names: &mut NameMap, name: Name, at: usize)
    requires { is_entered (keys names.old) name ≡ true }
    ensures names { keys names.new ≡ keys names.old }
    ensures leads { (q : List ℕ) → joined (get name_cmp names.new q) ≡ (if bytes_eq name q then Some at else joined (get name_cmp names.old q)) }
{
    let led: Result<_, _> = names.insert(name, Some(at));
    let _ = led.unwrap();
}
