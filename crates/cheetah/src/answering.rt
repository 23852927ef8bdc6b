ghost use Rattle.std.specs.Prelude.{◌≡◌, IfOk};
ghost use Rattle.ch_plan.specs.Kinds.{IsPlanOf};
ghost use Rattle.cheetah_inputs.specs.Inputs.{given_of};
ghost use Rattle.cheetah_run.specs.Asking.{AreAsked};
ghost use Rattle.cheetah.specs.Answering.{Answers, outcome_planned};

use crate::planning::print_program;
use ch_cells::Memory;
use ch_command::{Ending, Outcome};
use ch_plan::{Planned, plan};
use cheetah_inputs::{Inputs, plan_line};
use cheetah_run::run_query;
use std::alloc::Global;

/// What a planned query comes to: the text of its program, where that is asked for, or its run.
fn answer_planned(
    alloc: Global,
    inputs: &Inputs,
    planned: Planned,
    print: bool,
) -> Result<Outcome, Memory>
    requires asked { AreAsked inputs.now }
    requires plan { IsPlanOf planned.kind inputs.now.bound inputs.now.profile }
    ensures { IfOk result (λ outcome. outcome ≡ outcome_planned print (given_of inputs.now)) }
{
    if print {
        print_program(alloc, &planned)
    } else {
        run_query(alloc, inputs, planned)
    }
}

/// What the query comes to over the tables.
pub fn answer(alloc: Global, inputs: &Inputs, print: bool) -> Result<Outcome, Memory>
    requires { AreAsked inputs.now }
    ensures { IfOk result (λ outcome. Answers print (given_of inputs.now) outcome) }
{
    match plan(alloc, &inputs.bound, &inputs.profile) {
        Ok(planned) => answer_planned(alloc, inputs, planned, print),
        Err(error) => {
            let line = plan_line(alloc, error)?;
            Ok(Outcome::refused(alloc, Ending::Rejected, line))
        }
    }
}
