ghost use Rattle.std.specs.Prelude.{◌≡◌};
ghost use Rattle.cheetah_audit.specs.Runs.{pass_said};

use ch_audit_runs::Noting;
use ch_cells::{Listed, Memory};
use ch_run::{Outcome, Run};
use ch_schedule::Step;
use ch_trace_lines::Noted;

/// A run whose steps are noted, and its last pass.
#[derive(Drop)]
pub(crate) struct Audited<'a> {
    pub(crate) run: Run<'a>,
    pub(crate) last: u8,
}

/// The pass of what a run has come to: the last one where it is done, and else that of its open flows.
fn pass_in(outcome: &Outcome, last: u8) -> u8
    ensures { result ≡ pass_said outcome.now last }
{
    match outcome {
        Outcome::Done(_) => last,
        Outcome::Open(flows) => match flows.as_slice().first() {
            Some(flow) => flow.pass,
            None => last,
        },
    }
}

impl Noting for Audited<'_> {
    ghost use Rattle.cheetah_audit.specs.Runs.{IsAt, IsValid};

    ghost valid = { λ x. IsValid x.run x.last };

    ghost stands = { λ x c s. IsAt x.run x.last c s };

    ghost epoch = { λ x. x.run.switch.epoch };

    fn stopped(&self) -> bool {
        self.run.stopped()
    }

    fn pass(&self) -> Result<u8, Memory> {
        let outcome = self.run.outcome()?;
        Ok(pass_in(&outcome, self.last))
    }

    fn step_noted(&mut self, event: &Step) -> Result<Noted, Memory> {
        self.run.step_noted(event)
    }

    fn drain_noted(&mut self) -> Result<Listed<Noted>, Memory> {
        self.run.drain_noted()
    }
}
