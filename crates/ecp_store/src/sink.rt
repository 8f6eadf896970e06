ghost use Rattle.std.specs.Prelude.{◌≡◌, ℕ, ◌<◌, ◌≤◌, Bool, List, ◌++◌, length, take, IsTrue, IfOk, OnOk, OnErr};
ghost use Rattle.ecp_store.specs.Faults.{HasCause};

use crate::Failed;

/// Where bytes go to, in pieces.
pub trait Sink {
    /// Whether sinks of this type tell what was appended and flushed.
    ghost tells: { Bool };

    /// The bytes that were appended, where it tells.
    ghost appended: { Self → List ℕ };

    /// How many of the appended bytes are flushed, where it tells.
    ghost flushed: { Self → ℕ };

    /// How often it failed.
    ghost faults: { Self → ℕ };

    /// Appends the first m of `bytes` and answers `Ok(m)`, with m at least 1. A failure appends nothing.
    /// Either way no byte is flushed by it.
    fn push(&mut self, bytes: &[u8]) -> Result<usize, Failed>
        requires { 0 < length bytes.now }

        ensures some { IfOk result (λ m. 1 ≤ m) }
        ensures within { IfOk result (λ m. m ≤ length bytes.now) }
        ensures appends { IsTrue tells → IfOk result (λ m. appended self.new ≡ appended self.old ++ take m bytes.now) }
        ensures err { IsTrue tells → OnErr result (appended self.new ≡ appended self.old) }
        ensures flushed { IsTrue tells → flushed self.new ≡ flushed self.old }

        ensures never_falls { faults self.old ≤ faults self.new }
        ensures kept { OnOk result (faults self.new ≡ faults self.old) }
        ensures cause { HasCause result (faults self.old) (faults self.new) };

    /// Flushes all bytes that were appended. How many are flushed after a failure is not said.
    fn flush(&mut self) -> Result<(), Failed>
        ensures all { IsTrue tells → OnOk result (flushed self.new ≡ length (appended self.new)) }
        ensures appended { IsTrue tells → appended self.new ≡ appended self.old }

        ensures never_falls { faults self.old ≤ faults self.new }
        ensures kept { OnOk result (faults self.new ≡ faults self.old) }
        ensures cause { HasCause result (faults self.old) (faults self.new) };
}
