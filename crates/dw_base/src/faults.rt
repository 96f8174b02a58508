//! Faults: how often they came, and at which calls they are to come.

ghost use Rattle.std.specs.Prelude.{◌≡◌, ◌≤◌, ◌↔◌, IsTrue, IfOk, IfErr};
ghost use Rattle.std.specs.Bool.{OnFalse, OnTrue};
ghost use Rattle.dw_base.specs.Faults.{HasRisen, one_higher, FailsNext, after_call, after_fault};

use std::alloc::AllocError;
use std::marker::Model;

/// A count of faults with one more, which stays at `u64::MAX`.
pub fn one_fault_more(faults: u64) -> u64
    ensures count { result ≡ one_higher faults }
    ensures kept { faults ≤ result }
    ensures risen { HasRisen faults result }
{
    faults.saturating_add(1)
}

/// Which calls of a writer, a source or a sink are to fail, by their numbers from 0, how many
/// calls there were and how many failed.
#[derive(Drop)]
pub struct FaultPlan {
    failing: Vec<u64>,
    calls: u64,
    faults: u64,
}

impl Model for FaultPlan {
    ghost use Rattle.dw_base.specs.Faults.{Plan};

    ghost Value = { Plan };

    ghost view = { λ p. record { failing = p.failing.items; calls = p.calls; faults = p.faults } };
}

impl FaultPlan {
    /// No call so far. Those with the numbers in `failing` are to fail.
    pub fn new(failing: Vec<u64>) -> FaultPlan
        ensures { result ≡ record { failing = failing.items; calls = 0; faults = 0 } }
    {
        FaultPlan {
            failing,
            calls: 0,
            faults: 0,
        }
    }

    /// How many calls failed.
    pub fn faults(&self) -> u64
        ensures { result ≡ self.now.faults }
    {
        self.faults
    }

    /// Counts a call, and says whether it is to fail.
    pub fn next_fails(&mut self) -> bool
        ensures chosen { IsTrue result ↔ FailsNext self.old }
        ensures failed { OnTrue result (self.new ≡ after_fault self.old) }
        ensures quiet { OnFalse result (self.new ≡ after_call self.old) }
        ensures risen { OnTrue result (HasRisen self.old.faults self.new.faults) }
        ensures kept { self.old.faults ≤ self.new.faults }
    {
        let call = self.calls;
        self.calls = call.saturating_add(1);
        let fails = self.failing.contains(&call);
        if fails {
            self.faults = one_fault_more(self.faults);
        }
        fails
    }
}

impl Clone for FaultPlan {
    ghost is_clone = { λ a b. b ≡ a };

    fn clone(&self) -> std::result::Result<FaultPlan, AllocError> {
        Ok(FaultPlan {
            failing: self.failing.clone()?,
            calls: self.calls,
            faults: self.faults,
        })
    }
}
