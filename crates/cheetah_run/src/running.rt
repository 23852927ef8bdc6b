ghost use Rattle.std.specs.Prelude.{◌≡◌, ◌<◌, ◌+◌, ◌^◌, false, [], All, IfOk, length};
ghost use Rattle.ch_plan.specs.Kinds.{IsPlanOf};
ghost use Rattle.ch_print.specs.RunTexts.{counts_line, report};
ghost use Rattle.ch_protocol.specs.Machine.{State, start};
ghost use Rattle.ch_protocol.specs.Outcome.{after_schedule};
ghost use Rattle.ch_run.specs.Runs.{Begun, IsRunOf};
ghost use Rattle.ch_schedule.specs.Bad.{is_forged};
ghost use Rattle.ch_schedule.specs.Event.{events_of};
ghost use Rattle.cheetah_inputs.specs.Inputs.{given_of};
ghost use Rattle.cheetah_run.specs.Asking.{AreAsked};
ghost use Rattle.cheetah_run.specs.Saying.{said_by_run, said_in};

use ch_asked::rank_texts;
use ch_cells::{Bytes, Counts, Memory, OpenFlow};
use ch_command::{Ending, Outcome};
use ch_plan::Planned;
use ch_print::{counts_text, report_text};
use ch_run::{Outcome as RunOutcome, Run};
use ch_schedule::Schedule;
use cheetah_inputs::Inputs;
use std::alloc::Global;

/// The answer's text, and the counts of the run.
fn say_done(alloc: Global, out: Bytes, counts: &Counts) -> Result<Outcome, Memory>
    ensures { IfOk result (λ said. said ≡ record { ending = Ending.Done; out = out; err = counts_line counts.now }) }
{
    let err = counts_text(alloc, counts)?;
    Ok(Outcome {
        ending: Ending::Done,
        out,
        err,
    })
}

/// The flows that are open, and how many rows the answer over what was received has.
fn say_open(alloc: Global, flows: &[OpenFlow], partial: usize) -> Result<Outcome, Memory>
    ensures { IfOk result (λ said. said ≡ record { ending = Ending.Open; out = []; err = report flows.now partial }) }
{
    let err = report_text(alloc, flows, partial as u64)?;
    Ok(Outcome {
        ending: Ending::Open,
        out: Bytes::from_vec(Vec::new(alloc)),
        err,
    })
}

/// What is written of a run as it stands.
fn say(alloc: Global, run: &Run<'_>) -> Result<Outcome, Memory>
    ensures { (q : Begun) (s : State) → IsRunOf q run.now s → IfOk result (λ said. said ≡ said_in q s) }
{
    let outcome = run.outcome()?;
    match &outcome {
        RunOutcome::Done(counts) => say_done(alloc, run.text()?, counts),
        RunOutcome::Open(flows) => say_open(alloc, flows.as_slice(), run.answer_len()?),
    }
}

/// Follows a schedule from the first state on, and says what is written of the run behind it.
fn say_behind(alloc: Global, run: &mut Run<'_>, schedule: &Schedule) -> Result<Outcome, Memory>
    requires unforged { All (λ x. is_forged x ≡ false) schedule.now.steps }
    requires epochs { run.old.switch.epoch + length schedule.now.steps < 2 ^ 32 }
    ensures { (q : Begun) → IsRunOf q run.old (start q.given.config) → IfOk result (λ said. said ≡ said_in q (after_schedule q.given.config (events_of schedule.now.steps) schedule.now.drain)) }
{
    run.follow(schedule)?;
    say(alloc, run)
}

/// Runs a planned query over its tables along its schedule, and says what is written of it. Rows reach the answer through
/// the links alone.
pub fn run_query(alloc: Global, inputs: &Inputs, planned: Planned) -> Result<Outcome, Memory>
    requires asked { AreAsked inputs.now }
    requires plan { IsPlanOf planned.kind inputs.now.bound inputs.now.profile }
    ensures { IfOk result (λ said. said ≡ said_by_run (given_of inputs.now)) }
{
    let tables = inputs.tables.as_slice();
    let ranks = rank_texts(alloc, &inputs.bound, tables)?;
    let window = inputs.profile.window;
    let mut run = Run::start(alloc, tables, &inputs.bound, &ranks, planned, window)?;
    let said = say_behind(alloc, &mut run, &inputs.schedule);
    drop(run);
    said
}
