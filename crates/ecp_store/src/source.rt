ghost use Rattle.std.specs.Prelude.{◌≡◌, ℕ, ◌<◌, ◌≤◌, Bool, List, [], ◌++◌, length, take, IsTrue, IfOk, OnOk, OnErr};
ghost use Rattle.ecp_store.specs.Faults.{HasCause};

use crate::Failed;

/// Where bytes come from, in pieces.
pub trait Source {
    /// Whether sources of this type tell what they have left.
    ghost tells: { Bool };

    /// The bytes that it has left, where it tells.
    ghost left: { Self → List ℕ };

    /// Whether its end was reached: from then on no byte comes.
    ghost ended: { Self → Bool };

    /// How often it failed.
    ghost faults: { Self → ℕ };

    /// Puts the next m bytes into the front of `buf` and answers `Ok(m)`. `Ok(0)` is the end of the
    /// input. `buf` behind the first m bytes, and all of it after a failure, may hold any bytes. After a
    /// failure the same bytes are left, and the caller may pull again.
    fn pull(&mut self, buf: &mut [u8]) -> Result<usize, Failed>
        requires { 0 < length buf.old }

        // What was left is what came and what is left now. No byte comes only at the end.
        ensures within { IfOk result (λ m. m ≤ length buf.new) }
        ensures front { IsTrue tells → IfOk result (λ m. left self.old ≡ take m buf.new ++ left self.new) }
        ensures end_only { IsTrue tells → IfOk result (λ m. m ≡ 0 → left self.old ≡ []) }
        ensures err { IsTrue tells → OnErr result (left self.new ≡ left self.old) }

        // The end comes again.
        ensures ends { IfOk result (λ m. m ≡ 0 → IsTrue (ended self.new)) }
        ensures again { IsTrue (ended self.old) → IfOk result (λ m. m ≡ 0) }
        ensures stays { IsTrue (ended self.old) → IsTrue (ended self.new) }

        ensures never_falls { faults self.old ≤ faults self.new }
        ensures kept { OnOk result (faults self.new ≡ faults self.old) }
        ensures cause { HasCause result (faults self.old) (faults self.new) };
}
