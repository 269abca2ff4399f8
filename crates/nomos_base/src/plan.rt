//! Which calls of a source or a sink over memory are to fail.

ghost use Rattle.std.specs.Prelude.{◌≡◌, ◌≤◌, ◌||◌};
ghost use Rattle.std.specs.Bool.{OnTrue};
ghost use Rattle.nomos_base.specs.Faults.{Rose};

use std::marker::Model;

/// The calls so far, the numbers of those that are to fail, and how many failed.
#[derive(Drop)]
pub struct FaultPlan {
    calls: u64,
    failing: Vec<u64>,
    faults: u64,
}

impl Model for FaultPlan {
    ghost use Rattle.nomos_base.specs.Memory.{Plan};

    ghost Value = { Plan };

    ghost view = { λ plan. record {
      calls = plan.calls;
      failing = plan.failing.items;
      faults = plan.faults;
    } };
}

impl FaultPlan {
    ghost use Rattle.nomos_base.specs.Memory.{fresh_plan, fails_next, after_call};

    /// No call yet. The calls are numbered from 1.
    pub fn new(failing: Vec<u64>) -> Self
        ensures { result ≡ fresh_plan failing.items }
    {
        FaultPlan {
            calls: 0,
            failing,
            faults: 0,
        }
    }

    /// How many calls failed.
    pub fn faults(&self) -> u64
        ensures { result ≡ self.now.faults }
    {
        self.faults
    }

    /// Counts one more call, and a fault where it is to fail or `refused` says that it cannot do
    /// what was asked. It tells whether the call fails.
    pub fn call_fails(&mut self, refused: bool) -> bool
        ensures fails { result ≡ (fails_next self.old || refused) }
        ensures counted { self.new ≡ after_call self.old result }
        ensures rose { OnTrue result (Rose self.old.faults self.new.faults) }
        ensures never_falls { self.old.faults ≤ self.new.faults }
    {
        self.calls = self.calls.saturating_add(1);
        let due = self.calls < u64::MAX && self.failing.contains(&self.calls);
        let fails = due || refused;
        if fails {
            self.faults = self.faults.saturating_add(1);
        }
        fails
    }
}
