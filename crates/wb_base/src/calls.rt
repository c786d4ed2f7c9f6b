//! Calls that are counted, some of which are to fail.
use crate::OutOfMemory;
use std::alloc::Global;
use std::marker::Model;

/// Counts the calls of a shelf or a sink in memory, and its faults.
#[derive(Drop)]
pub(crate) struct Calls {
    failing: Vec<u64>,
    made: u64,
    faults: u64,
}

impl Model for Calls {
    ghost use Rattle.wb_base.specs.Calls.{CallCount};

    ghost Value = { CallCount };

    ghost view = { λ c. record { failing = c.failing.items; made = c.made; faults = c.faults } };
}

impl Calls {
    ghost use Rattle.std.specs.Prelude.{◌≡◌, ◌≤◌, ◌∷◌, [], ◌++◌, OnOk, OnErr};
    ghost use Rattle.wb_base.specs.Calls.{CallCount, no_calls, next_fails, after_call};

    pub(crate) fn new(alloc: Global) -> Self
        ensures { result ≡ no_calls }
    {
        Calls {
            failing: Vec::new(alloc),
            made: 0,
            faults: 0,
        }
    }

    // Makes the call of that number fail, counted from 1.
    pub(crate) fn fail(&mut self, call: u64) -> Result<(), OutOfMemory>
        ensures ok { OnOk result (self.new ≡ record self.old { failing = self.old.failing ++ call ∷ [] }) }
        ensures err { OnErr result (self.new ≡ self.old) }
    {
        self.failing.push(call)?;
        Ok(())
    }

    pub(crate) fn next_fails(&self) -> bool
        ensures { result ≡ next_fails self.now }
    {
        match self.made.checked_add(1) {
            Some(next) => self.failing.contains(&next),
            None => true,
        }
    }

    // Counts one more call, which was a fault or not.
    pub(crate) fn count(&mut self, fault: bool)
        ensures count { self.new ≡ after_call fault self.old }
        ensures later { self.old.faults ≤ self.new.faults }
    {
        self.made = self.made.saturating_add(1);
        if fault {
            self.faults = self.faults.saturating_add(1);
        }
    }
}
