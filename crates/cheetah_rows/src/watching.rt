//! A run, shown at each moment.
ghost use Rattle.std.specs.Prelude.{◌≡◌, ◌<◌, ◌+◌, ◌^◌, All, false, length};
ghost use Rattle.ch_plan.specs.Kinds.{IsPlanOf};
ghost use Rattle.ch_schedule.specs.Bad.{is_forged};
ghost use Rattle.cheetah_run.specs.Asking.{AreAsked};

use ch_asked::rank_texts;
use ch_cells::Bytes;
use ch_plan::Planned;
use ch_print::{answer_text, counts_text, report_text};
use ch_run::{Outcome, Run};
use ch_schedule::{Schedule, Step};
use cheetah_inputs::Inputs;
use std::alloc::Global;
use std::str;

/// The counts of the run, or the report of what is open with the number of rows of the answer.
fn ending(alloc: Global, run: &Run<'_>) -> anyhow::Result<Bytes> {
    let rows = run.answer_len()? as u64;
    let outcome = run.outcome()?;
    let said = match &outcome {
        Outcome::Done(counts) => counts_text(alloc, counts),
        Outcome::Open(flows) => report_text(alloc, flows.as_slice(), rows),
    };
    drop(outcome);
    Ok(said?)
}

/// The answer over what the master has received up to now, by its rows and as the run writes it.
fn answers(alloc: Global, run: &Run<'_>) -> anyhow::Result<(Bytes, Bytes)> {
    let answer = run.answer()?;
    let text = answer_text(alloc, &answer)?;
    Ok((text, run.text()?))
}

/// Adds the answer over what the master has received up to now, and how the run stands.
fn show(alloc: Global, run: &Run<'_>, lines: &mut String) -> anyhow::Result<()> {
    let (text, written) = answers(alloc, run)?;
    if text.as_slice() != written.as_slice() {
        lines.push_str("written otherwise:\n")?;
    }
    lines.push_str(str::from_utf8(written.as_slice())?)?;
    let stands = ending(alloc, run)?;
    lines.push_str(str::from_utf8(stands.as_slice())?)?;
    Ok(())
}

fn show_behind(
    alloc: Global,
    step: &Step,
    run: &Run<'_>,
    lines: &mut String,
) -> anyhow::Result<()> {
    lines.push_str(format!(in alloc; "behind {step:?}\n")?.as_str())?;
    show(alloc, run, lines)
}

/// The run behind each step of its schedule, and behind its drain.
fn follow(
    alloc: Global,
    run: &mut Run<'_>,
    schedule: &Schedule,
    lines: &mut String,
) -> anyhow::Result<()>
    requires unforged { All (λ x. is_forged x ≡ false) schedule.now.steps }
    requires epochs { run.old.switch.epoch + length schedule.now.steps < 2 ^ 32 }
{
    for step in schedule.steps.as_slice() {
        run.step(step)?;
        show_behind(alloc, step, run, lines)?;
    }
    if schedule.drain {
        run.drain()?;
        lines.push_str("behind the drain\n")?;
        show(alloc, run, lines)?;
    }
    Ok(())
}

/// A run from its start on, at each moment.
fn followed(alloc: Global, run: &mut Run<'_>, schedule: &Schedule) -> anyhow::Result<String>
    requires unforged { All (λ x. is_forged x ≡ false) schedule.now.steps }
    requires epochs { run.old.switch.epoch + length schedule.now.steps < 2 ^ 32 }
{
    let mut lines = String::from_str(alloc, "at the start\n")?;
    show(alloc, run, &mut lines)?;
    follow(alloc, run, schedule, &mut lines)?;
    Ok(lines)
}

/// The run of a planned query along its schedule, at each moment.
pub(crate) fn watch(alloc: Global, inputs: &Inputs, planned: Planned) -> anyhow::Result<String>
    requires asked { AreAsked inputs.now }
    requires plan { IsPlanOf planned.kind inputs.now.bound inputs.now.profile }
{
    let tables = inputs.tables.as_slice();
    let ranks = match rank_texts(alloc, &inputs.bound, tables) {
        Ok(ranks) => ranks,
        Err(memory) => {
            drop(planned);
            return Err(memory.into());
        }
    };
    let window = inputs.profile.window;
    let mut run = Run::start(alloc, tables, &inputs.bound, &ranks, planned, window)?;
    let lines = followed(alloc, &mut run, &inputs.schedule);
    drop(run);
    lines
}
