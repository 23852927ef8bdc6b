ghost use Rattle.std.specs.Prelude.{◌≡◌, ◌≢◌, ◌≤◌, length, IfOk};
ghost use Rattle.ch_command.specs.Command.{refused};
ghost use Rattle.ch_command.specs.Reading.{most_bytes};
ghost use Rattle.ch_plan.specs.Kinds.{IsPlanOf};
ghost use Rattle.cheetah_audit_meaning.specs.Meaning.{Checks, OfTrace, Writes};
ghost use Rattle.cheetah_inputs.specs.Inputs.{given_of};
ghost use Rattle.cheetah_inputs.specs.Limits as limits;
ghost use Rattle.cheetah_run.specs.Asking.{AreAsked};
ghost use Rattle.cheetah_run.specs.Running.{config_of};
ghost use Rattle.cheetah_audit.specs.Result.{runs};

use crate::running::{check_run, write_run};
use ch_audit_runs::Checked;
use ch_cells::Memory;
use ch_command::{Ending, Outcome};
use ch_plan::{PlanError, Planned, plan};
use cheetah_inputs::{Inputs, plan_line};
use std::alloc::Global;

/// The plan is refused, which want of memory is not.
fn refuse_plan(alloc: Global, error: PlanError) -> Result<Outcome, Memory>
    ensures { IfOk result (λ outcome. (error ≢ PlanError.Memory) × (outcome ≡ refused Ending.Rejected (limits.plan_line error))) }
{
    let line = plan_line(alloc, error)?;
    Ok(Outcome::refused(alloc, Ending::Rejected, line))
}

/// What a checked text comes to.
fn tell(alloc: Global, inputs: &Inputs, planned: Planned, text: &[u8]) -> Result<Outcome, Memory>
    requires asked { AreAsked inputs.now }
    requires plan { IsPlanOf planned.kind inputs.now.bound inputs.now.profile }
    requires short { length text.now ≤ most_bytes }
    ensures { IfOk result (λ outcome. OfTrace (config_of (given_of inputs.now)) text.now outcome) }
{
    let checked = check_run(alloc, inputs, planned, text)?;
    match checked.into_said() {
        Ok(said) => Ok(Outcome::answered(alloc, said)),
        Err(line) => Ok(Outcome::refused(alloc, Ending::Rejected, line)),
    }
}

/// The trace of the run of a query, or the limit that its plan exceeds.
pub(crate) fn write_errand(alloc: Global, inputs: &Inputs) -> Result<Outcome, Memory>
    requires { AreAsked inputs.now }
    ensures { IfOk result (λ outcome. Writes runs (given_of inputs.now) outcome) }
{
    match plan(alloc, &inputs.bound, &inputs.profile) {
        Ok(planned) => {
            let text = write_run(alloc, inputs, planned)?;
            Ok(Outcome::answered(alloc, text))
        }
        Err(error) => refuse_plan(alloc, error),
    }
}

/// What a text comes to as the trace of a run of a query, or the limit that its plan exceeds.
pub(crate) fn check_errand(alloc: Global, inputs: &Inputs, text: &[u8]) -> Result<Outcome, Memory>
    requires asked { AreAsked inputs.now }
    requires short { length text.now ≤ most_bytes }
    ensures { IfOk result (λ outcome. Checks runs text.now (given_of inputs.now) outcome) }
{
    match plan(alloc, &inputs.bound, &inputs.profile) {
        Ok(planned) => tell(alloc, inputs, planned, text),
        Err(error) => refuse_plan(alloc, error),
    }
}
