ghost use Rattle.std.specs.Prelude.{◌≡◌, ◌≤◌, ◌<◌, ◌^◌, ◌↔◌, IsTrue};
ghost use Rattle.std.specs.Bool.{OnTrue, OnFalse};
ghost use Rattle.mc_outside.specs.InMemory.{FailsNext, fresh, passed, failed};

use std::marker::Model;

/// How often a form in memory was called, and which of its calls fail.
#[derive(Drop)]
pub struct Calls {
    fail: Vec<u64>,
    made: u64,
    faults: u64,
}

impl Model for Calls {
    ghost use Rattle.std.specs.Prelude.{◌<◌, ◌^◌};
    ghost use Rattle.mc_outside.specs.InMemory.{CallsState};

    ghost Value = { CallsState };

    ghost view = { λ c. record { fail = c.fail.items; made = c.made; faults = c.faults } };

    ghost invariant = { λ c. c.faults < 2 ^ 64 };
}

impl Calls {
    /// No calls yet. Those whose numbers `fail` lists, counted from 1, will fail.
    pub fn new(fail: Vec<u64>) -> Calls
        ensures { result ≡ fresh fail.items }
    {
        Calls {
            fail,
            made: 0,
            faults: 0,
        }
    }

    /// Counts a call and answers whether it fails, which is counted too. Both counts stop at 2^64 - 1.
    pub fn next_fails(&mut self) -> bool
        ensures failing { IsTrue result ↔ FailsNext self.old }
        ensures failed { OnTrue result (self.new ≡ failed self.old) }
        ensures passed { OnFalse result (self.new ≡ passed self.old) }
        ensures later { self.old.faults ≤ self.new.faults }
        ensures fit { self.new.faults < 2 ^ 64 }
    {
        self.made = self.made.saturating_add(1);
        let fails = self.fail.contains(&self.made);
        if fails {
            self.faults = self.faults.saturating_add(1);
        }
        fails
    }
}
