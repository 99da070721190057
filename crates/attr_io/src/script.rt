ghost use Rattle.std.specs.Prelude.{◌≡◌, ◌+◌, ◌≤◌, ◌↔◌, IsTrue, Contains};
ghost use Rattle.attr_io.specs.Outside.{count_up};

use attr_ids::Numbers;

/// The calls of a source or a sink in memory: which fail, by their numbers from 1, how many were made
/// and how many failed. Both counts stop at 2^64 - 1. No call after the one of that number fails as
/// listed, since no list has its number.
#[derive(Debug, Drop)]
pub(crate) struct Script {
    pub(crate) failing: Numbers,
    pub(crate) calls: u64,
    pub(crate) faults: u64,
}

impl Script {
    pub(crate) fn new(failing: Numbers) -> Script
        ensures { result ≡ record { failing = failing; calls = 0; faults = 0 } }
    {
        Script {
            failing,
            calls: 0,
            faults: 0,
        }
    }

    /// Counts one more call, and tells whether it is one of those that fail.
    pub(crate) fn begin_call(&mut self) -> bool
        ensures listed { IsTrue result ↔ Contains self.old.failing (self.old.calls + 1) }
        ensures state { self.new ≡ record self.old { calls = count_up self.old.calls } }
    {
        let failing = self.failing.as_slice();
        match self.calls.checked_add(1) {
            Some(number) => {
                self.calls = number;
                failing.contains(&number)
            }
            None => false,
        }
    }

    pub(crate) fn count_fault(&mut self)
        ensures state { self.new ≡ record self.old { faults = count_up self.old.faults } }
        ensures grows { self.old.faults ≤ self.new.faults }
    {
        self.faults = self.faults.saturating_add(1);
    }
}
