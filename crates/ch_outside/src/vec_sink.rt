ghost use Rattle.std.specs.Prelude.{◌≡◌, ◌≤◌, ◌↔◌, [], Some, IsTrue, IsErrOf};
ghost use Rattle.ch_outside.specs.FaultPlan.{fails_next};
ghost use Rattle.ch_outside.specs.Faults.{StaysReliable};
ghost use Rattle.ch_outside.specs.Sink.{Puts};
ghost use Rattle.ch_outside.specs.VecSink.{after_put};

use crate::fault_plan::FaultPlan;
use crate::sink::{Sink, SinkError};
use std::alloc::Global;
use std::marker::Model;

/// A sink in memory, whose calls fail where they are told to.
pub struct VecSink {
    bytes: Vec<u8>,
    plan: FaultPlan,
}

impl Drop for VecSink {
    fn drop(self) {
        let VecSink { bytes: _, plan: _ } = self;
    }
}

impl Model for VecSink {
    ghost use Rattle.ch_outside.specs.VecSink.{BytesInMemory};

    ghost Value = { BytesInMemory };

    ghost view = { λ s. record { bytes = s.bytes.items; plan = s.plan } };
}

impl VecSink {
    /// A sink that has written nothing, where the n-th call of `put` fails for each n in `fail`,
    /// counted from 0.
    pub fn new(alloc: Global, fail: Vec<u32>) -> VecSink
        ensures { result ≡ record {
          bytes = [];
          plan = record { fail = fail.items; calls = 0; faults = 0 };
        } }
    {
        VecSink {
            bytes: Vec::new(alloc),
            plan: FaultPlan::new(fail),
        }
    }

    /// What was written.
    pub fn bytes(&self) -> &[u8]
        ensures { result.now ≡ self.now.bytes }
    {
        &self.bytes
    }
}

impl Sink for VecSink {
    ghost written = { λ s. Some s.bytes };

    ghost faults = { λ s. s.plan.faults };

    ghost reliable = { λ s. s.plan.fail ≡ [] };

    fn put(&mut self, piece: &[u8]) -> Result<(), SinkError>
        ensures later { self.old.plan.faults ≤ self.new.plan.faults }
        ensures steady { StaysReliable (self.old.plan.fail ≡ []) (self.new.plan.fail ≡ [])
            self.old.plan.faults self.new.plan.faults }
        ensures puts { Puts (Some self.old.bytes) (Some self.new.bytes) piece.now
            self.old.plan.faults self.new.plan.faults result }

        // The next two say all that a call does.
        ensures after { self.new ≡ after_put self.old piece.now result }
        ensures fails { IsErrOf result SinkError.Failed ↔ IsTrue (fails_next self.old.plan) }
    {
        if self.plan.count_call() {
            return Err(SinkError::Failed);
        }
        match self.bytes.extend_from_slice(piece) {
            Ok(()) => Ok(()),
            Err(_) => Err(SinkError::Memory),
        }
    }
}
