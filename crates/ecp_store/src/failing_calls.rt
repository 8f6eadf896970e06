ghost use Rattle.std.specs.Prelude.{◌≡◌, ◌↔◌, IsErr, OnOk, OnErr};
ghost use Rattle.ecp_store.specs.Faults.{one_more};
ghost use Rattle.ecp_store.specs.Calls.{Calls, no_calls, IsListed, after_success, after_failure};

use crate::Failed;
use std::marker::Model;

/// Counts the calls of an object and its faults, and fails the calls whose numbers are listed.
///
/// Both counts stand still at the greatest `u64`.
#[derive(Debug, Drop)]
pub struct FailingCalls {
    fail: Vec<u64>,
    made: u64,
    faults: u64,
}

impl Model for FailingCalls {
    ghost Value = { Calls };

    ghost view = { λ calls. record { fail = calls.fail.items; made = calls.made; faults = calls.faults } };
}

impl FailingCalls {
    /// No call so far. The calls with these numbers, from 0, are to fail.
    pub fn new(fail: Vec<u64>) -> Self
        ensures { result ≡ no_calls fail.items }
    {
        FailingCalls {
            fail,
            made: 0,
            faults: 0,
        }
    }

    /// Counts one more call, which fails where its number is listed. Linear in the list.
    pub fn begin(&mut self) -> Result<(), Failed>
        ensures fails { IsErr result ↔ IsListed self.old }
        ensures ok { OnOk result (self.new ≡ after_success self.old) }
        ensures err { OnErr result (self.new ≡ after_failure self.old) }
    {
        let number = self.made;
        self.made = self.made.saturating_add(1);
        if self.fail.contains(&number) {
            return Err(self.fault());
        }
        Ok(())
    }

    /// Counts a fault of the call that was begun last.
    pub fn fault(&mut self) -> Failed
        ensures { self.new ≡ record self.old { faults = one_more self.old.faults } }
    {
        self.faults = self.faults.saturating_add(1);
        Failed
    }
}
