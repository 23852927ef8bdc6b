ghost use Rattle.std.specs.Prelude.{◌≡◌, ◌≤◌};
ghost use Rattle.ch_outside.specs.FaultPlan.{fails_next, after_call};

use std::marker::Model;

/// Which calls of an object in memory fail, how many there were, and how many of them failed.
#[derive(Drop)]
pub(crate) struct FaultPlan {
    fail: Vec<u32>,
    calls: u64,
    faults: u64,
}

impl Model for FaultPlan {
    ghost use Rattle.ch_outside.specs.FaultPlan.{Plan};

    ghost Value = { Plan };

    ghost view = { λ p. record { fail = p.fail.items; calls = p.calls; faults = p.faults } };
}

impl FaultPlan {
    pub(crate) fn new(fail: Vec<u32>) -> FaultPlan
        ensures { result ≡ record { fail = fail.items; calls = 0; faults = 0 } }
    {
        FaultPlan {
            fail,
            calls: 0,
            faults: 0,
        }
    }

    fn fails_next(&self) -> bool
        ensures { result ≡ fails_next self.now }
    {
        let call = self.calls;
        self.fail.iter().any(|n| u64::from(*n) == call)
    }

    /// Counts a call, and tells whether it fails.
    pub(crate) fn count_call(&mut self) -> bool
        ensures answer { result ≡ fails_next self.old }
        ensures after { self.new ≡ after_call self.old }
        ensures later { self.old.faults ≤ self.new.faults }
    {
        let failed = self.fails_next();
        self.calls = self.calls.saturating_add(1);
        if failed {
            self.faults = self.faults.saturating_add(1);
        }
        failed
    }
}
