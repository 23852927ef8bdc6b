ghost use Rattle.std.specs.Prelude.{◌≡◌, ◌<◌, ◌+◌, ◌^◌, false, if◌then◌else◌, length, All, OnOk, OnErr};
ghost use Rattle.ch_protocol.specs.Drain.{drain};
ghost use Rattle.ch_protocol.specs.Machine.{run};
ghost use Rattle.ch_schedule.specs.Bad.{is_forged};
ghost use Rattle.ch_schedule.specs.Event.{events_of};
ghost use Rattle.ch_run.specs.Runs.{LeadsOn, LeadsTo};

use crate::run::Run;
use ch_cells::Memory;
use ch_schedule::{Schedule, Step};

impl Run<'_> {
    /// All steps of a schedule, and then its drain, if it ends in one.
    pub fn follow(&mut self, schedule: &Schedule) -> Result<(), Memory>
        requires unforged { All (λ x. is_forged x ≡ false) schedule.now.steps }
        requires epochs { self.old.switch.epoch + length schedule.now.steps < 2 ^ 32 }
        ensures ok { OnOk result (LeadsTo self.old self.new (λ c s. let t = run c (events_of schedule.now.steps) s in if schedule.now.drain then drain c t else t)) }
        ensures err { OnErr result (LeadsOn self.old self.new) }
    {
        self.steps(schedule.steps.as_slice())?;
        if schedule.drain {
            self.drain()?;
        }
        Ok(())
    }

    // One step after the other.
    fn steps(&mut self, steps: &[Step]) -> Result<(), Memory>
        requires unforged { All (λ x. is_forged x ≡ false) steps.now }
        requires epochs { self.old.switch.epoch + length steps.now < 2 ^ 32 }
        ensures ok { OnOk result (LeadsTo self.old self.new (λ c s. run c (events_of steps.now) s)) }
        ensures err { OnErr result (LeadsOn self.old self.new) }
    {
        for step in steps {
            self.step(step)?;
        }
        Ok(())
    }
}
