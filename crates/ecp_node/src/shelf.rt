//! A node's index beside its store.
ghost use Rattle.std.specs.Prelude.{◌≡◌, ℕ, nat_eq, Some, None, IsTrue, OnOk, OnErr, IsErrOf};
ghost use Rattle.std.specs.HashMap as hash;
ghost use Rattle.ecp_store.specs.Stores.{Puts, Stays, KeepCounts};
ghost use Rattle.ecp_node.specs.Shelves.{Enters, ServesNothing};

use crate::place::Place;
use ecp_store::{KeepFault, Key, Store};
use std::collections::HashMap;

/// The blocks that a node holds, by their serials.
pub(crate) type Index = HashMap<u64, Place>;

/// Keeps a new block in the store and in the index. The store is asked once there is room in the index.
pub(crate) fn keep_block<S: Store>(
    store: &mut S,
    index: &mut Index,
    key: Key,
    bytes: &[u8],
) -> Result<(), KeepFault>
    ensures entered { OnOk result (Enters key (hash.get nat_eq index.old) (hash.get nat_eq index.new)) }
    ensures kept { OnErr result ((q : ℕ) → hash.get nat_eq index.new q ≡ hash.get nat_eq index.old q) }
    ensures ok { IsTrue S.tells → OnOk result (Puts key (Some bytes.now) (S.held store.old) (S.held store.new)) }
    ensures err { IsTrue S.tells → OnErr result (Stays (S.held store.old) (S.held store.new)) }
    ensures served { S.served store.new ≡ S.served store.old }
    ensures counts { KeepCounts result (S.faults store.old) (S.faults store.new) }
    ensures same { S.faultless store.new ≡ S.faultless store.old }
    ensures faultless { IsTrue (S.faultless store.old) → IsErrOf result KeepFault.Failed → ⊥ }
{
    index.reserve(1)?;
    store.keep(key, bytes)?;
    let place = Place {
        stripe: key.stripe,
        row: key.row,
    };
    let entered: Result<_, _> = index.insert(key.serial, place);
    let _ = entered.unwrap();
    Ok(())
}

/// Empties the index, and asks the store to remove each of its blocks. A failure of that changes nothing else.
pub(crate) fn remove_all<S: Store>(store: &mut S, index: &mut Index)
    ensures empty { (q : ℕ) → hash.get nat_eq index.new q ≡ None }
    ensures nothing { ServesNothing S.Store store.old store.new }
{
    for (serial, place) in index.iter() {
        let _ = store.remove(Key {
            stripe: place.stripe,
            row: place.row,
            serial: *serial,
        });
    }
    index.clear();
}
