//! Calls that are numbered from 1, of which those in a list fail, and the count of faults.
ghost use Rattle.std.specs.Prelude.{◌≡◌, ◌≤◌, is_err};
ghost use Rattle.tcmu_types.specs.Numbered.{HasCause, Rose, is_listed, next_call};
ghost use Rattle.edge.specs.Outside.{CountsFailed};

use crate::Failed;
use std::marker::Model;
use tcmu_types::Serials;

/// The calls that fail, numbered from 1, how many calls were made, and how many of them failed. Both counts stop at 2^64 - 1.
#[derive(Debug, Drop)]
pub struct ListedCalls {
    fails: Serials,
    calls: u64,
    faults: u64,
}

impl Model for ListedCalls {
    ghost use Rattle.edge.specs.Memory.{CallsInMemory};

    ghost Value = { CallsInMemory };

    ghost view = { λ c. record { fails = c.fails.items; calls = c.calls; faults = c.faults } };
}

impl ListedCalls {
    /// No call made yet, and those that are listed will fail.
    pub fn new(fails: Serials) -> ListedCalls
        ensures { result ≡ record { fails = fails.items; calls = 0; faults = 0 } }
    {
        ListedCalls {
            fails,
            calls: 0,
            faults: 0,
        }
    }

    /// How many calls were made, failed ones too.
    pub fn calls(&self) -> u64
        ensures { result ≡ self.now.calls }
    {
        self.calls
    }

    /// Counts one more call, which fails where it is listed.
    pub fn begin(&mut self) -> Result<(), Failed>
        ensures exact { is_err result ≡ is_listed self.old.fails self.old.calls }
        ensures calls { self.new.calls ≡ next_call self.old.calls }
        ensures fails { self.new.fails ≡ self.old.fails }
        ensures cause { HasCause self.old.faults self.new.faults result }
        ensures count { CountsFailed self.old.faults (is_err result) self.new.faults }
    {
        self.calls = self.calls.saturating_add(1);
        if self.fails.contains(self.calls) {
            return Err(self.fault());
        }
        Ok(())
    }

    /// Counts a fault where what the call reached has failed, and answers as that did.
    pub fn end(&mut self, reached: Result<(), Failed>) -> Result<(), Failed>
        ensures same { result ≡ reached }
        ensures calls { self.new.calls ≡ self.old.calls }
        ensures fails { self.new.fails ≡ self.old.fails }
        ensures cause { HasCause self.old.faults self.new.faults result }
        ensures count { CountsFailed self.old.faults (is_err result) self.new.faults }
    {
        if reached.is_err() {
            let _ = self.fault();
        }
        reached
    }

    /// Counts a fault of the call that has begun.
    pub fn fault(&mut self) -> Failed
        ensures count { self.new.faults ≡ next_call self.old.faults }
        ensures later { self.old.faults ≤ self.new.faults }
        ensures rose { Rose self.old.faults self.new.faults }
        ensures calls { self.new.calls ≡ self.old.calls }
        ensures fails { self.new.fails ≡ self.old.fails }
    {
        self.faults = self.faults.saturating_add(1);
        Failed
    }
}
