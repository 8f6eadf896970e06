ghost use Rattle.std.specs.Prelude.{◌≡◌, ℕ, ◌-◌, ◌^◌, ◌<◌, ◌≤◌, Bool, Some, None, length, IsTrue, IsOk, IsErrOf, OnOk, OnErr};
ghost use Rattle.ecp_store.specs.Faults.{Counts};
ghost use Rattle.ecp_store.specs.Stores.{Held, Puts, Stays, HasPart, IsPart, and_served, KeepCounts};

use crate::{Failed, KeepFault, Key};

/// Where a node keeps its blocks.
///
/// A call that answers an error leaves what is held.
pub trait Store {
    /// Whether stores of this type tell what they hold.
    ghost tells: { Bool };

    /// The bytes at each key, where it tells.
    ghost held: { Self → Held };

    /// How often it failed.
    ghost faults: { Self → ℕ };

    /// How many bytes its reads gave: the lengths of all reads that were `Ok`.
    ghost served: { Self → ℕ };

    /// Whether it never fails. No call changes it.
    ghost faultless: { Self → Bool };

    /// Keeps these bytes under the key, in place of any that it held there.
    fn keep(&mut self, key: Key, bytes: &[u8]) -> Result<(), KeepFault>
        ensures ok { IsTrue tells → OnOk result (Puts key (Some bytes.now) (held self.old) (held self.new)) }
        ensures err { IsTrue tells → OnErr result (Stays (held self.old) (held self.new)) }
        ensures served { served self.new ≡ served self.old }

        ensures counts { KeepCounts result (faults self.old) (faults self.new) }
        ensures same { faultless self.new ≡ faultless self.old }
        ensures faultless { IsTrue (faultless self.old) → IsErrOf result KeepFault.Failed → ⊥ };

    /// Fills `buf` with the bytes at `off` of those under the key. A store that does not tell fails where the
    /// key is not held or its bytes end before. After a failure `buf` may hold any bytes.
    fn read(&mut self, key: Key, off: u32, buf: &mut [u8]) -> Result<(), Failed>
        requires { IsTrue tells → HasPart (held self.old key) off (length buf.old) }

        ensures bytes { IsTrue tells → OnOk result (IsPart (held self.old key) off buf.new) }
        ensures stays { IsTrue tells → Stays (held self.old) (held self.new) }
        ensures served { OnOk result (served self.new ≡ and_served (served self.old) (length buf.new)) }
        ensures refused { OnErr result (served self.new ≡ served self.old) }

        ensures counts { Counts result (faults self.old) (faults self.new) }
        ensures same { faultless self.new ≡ faultless self.old }
        ensures faultless { IsTrue (faultless self.old) → IsOk result };

    /// Takes the key out. `Ok` also where it is not held.
    fn remove(&mut self, key: Key) -> Result<(), Failed>
        ensures ok { IsTrue tells → OnOk result (Puts key None (held self.old) (held self.new)) }
        ensures err { IsTrue tells → OnErr result (Stays (held self.old) (held self.new)) }
        ensures served { served self.new ≡ served self.old }

        ensures counts { Counts result (faults self.old) (faults self.new) }
        ensures same { faultless self.new ≡ faultless self.old }
        ensures faultless { IsTrue (faultless self.old) → IsOk result };

    /// How many bytes its reads gave, in all. It stands still at the greatest `u64`.
    fn served(&self) -> u64
        ensures { result ≡ served self.now };

    ghost faultless_tells: { (store : Self) → IsTrue (faultless store) → IsTrue tells };

    ghost faultless_counts: { (store : Self) → IsTrue (faultless store) → faults store < 2 ^ 64 - 1 };
}
