ghost use Rattle.std.specs.Prelude.{◌≡◌, ◌<◌, ◌≤◌, ◌+◌, ◌^◌, ◌++◌, ◌∷◌, [], false, if◌then◌else◌, length, map, All, IfOk, OnOk};
ghost use Rattle.ch_protocol.specs.Drain.{drain};
ghost use Rattle.ch_protocol.specs.Machine.{Config, State, run as run_of, start, step as step_of, workers};
ghost use Rattle.ch_schedule.specs.Bad.{is_forged};
ghost use Rattle.ch_schedule.specs.Event.{event_of, events_of};
ghost use Rattle.ch_trace_lines.specs.Spelling.{lines_text};
ghost use Rattle.ch_trace_lines.specs.Trace.{drain_steps, ending_at, lines_from, trace_of};
ghost use Rattle.ch_trace_lines.specs.declared.line.Line.TheVariants as line;

use crate::noting::Noting;
use ch_cells::{Bytes, Memory};
use ch_schedule::{Schedule, Step};
use ch_trace_lines::{Ending, Noted, push_ending, push_noted};
use std::alloc::Global;

/// Writes the lines of notes.
fn push_notes(text: &mut Vec<u8>, notes: &[Noted]) -> Result<(), Memory>
    ensures { OnOk result (text.new.items ≡ text.old.items ++ lines_text (map line.Event notes.now)) }
{
    for noted in notes {
        push_noted(text, noted)?;
    }
    Ok(())
}

/// A step of the run and its line, unless the run has stopped.
fn push_step<R: Noting>(text: &mut Vec<u8>, run: &mut R, step: &Step) -> Result<(), Memory>
    requires valid { R.valid run.old }
    requires epoch { R.epoch run.old + 1 < 2 ^ 32 }
    requires unforged { is_forged step.now ≡ false }
    ensures valid { OnOk result (R.valid run.new) }
    ensures epoch { OnOk result (R.epoch run.new ≤ R.epoch run.old + 1) }
    ensures run { (c : Config) (s : State) → R.stands run.old c s → OnOk result (R.stands run.new c (step_of c s (event_of step.now))) }
    ensures text { (c : Config) (s : State) → R.stands run.old c s → OnOk result (text.new.items ≡ text.old.items ++ lines_text (lines_from c s (step.now ∷ []))) }
{
    if run.stopped() {
        return Ok(());
    }
    let noted = run.step_noted(step)?;
    push_noted(text, &noted)
}

/// The steps of the run in turn, and a line for each until it stops.
fn push_steps<R: Noting>(text: &mut Vec<u8>, run: &mut R, steps: &[Step]) -> Result<(), Memory>
    requires valid { R.valid run.old }
    requires unforged { All (λ x. is_forged x ≡ false) steps.now }
    requires epochs { R.epoch run.old + length steps.now < 2 ^ 32 }
    ensures valid { OnOk result (R.valid run.new) }
    ensures run { (c : Config) (s : State) → R.stands run.old c s → OnOk result (R.stands run.new c (run_of c (events_of steps.now) s)) }
    ensures text { (c : Config) (s : State) → R.stands run.old c s → OnOk result (text.new.items ≡ text.old.items ++ lines_text (lines_from c s steps.now)) }
{
    for step in steps {
        push_step(text, run, step)?;
    }
    Ok(())
}

/// The drain of the run, and a line for each of its events.
fn push_drain<R: Noting>(text: &mut Vec<u8>, run: &mut R) -> Result<(), Memory>
    requires { R.valid run.old }
    ensures run { (c : Config) (s : State) → R.stands run.old c s → OnOk result (R.stands run.new c (drain c s)) }
    ensures text { (c : Config) (s : State) → R.stands run.old c s → 0 < workers c → OnOk result (text.new.items ≡ text.old.items ++ lines_text (lines_from c s (drain_steps c s))) }
{
    let notes = run.drain_noted()?;
    push_notes(text, notes.as_slice())
}

/// What comes behind the steps of a schedule: its drain, if it ends in one.
fn push_rest<R: Noting>(text: &mut Vec<u8>, run: &mut R, drains: bool) -> Result<(), Memory>
    requires { R.valid run.old }
    ensures run { (c : Config) (s : State) → R.stands run.old c s → OnOk result (R.stands run.new c (if drains then drain c s else s)) }
    ensures text { (c : Config) (s : State) → R.stands run.old c s → 0 < workers c → OnOk result (text.new.items ≡ text.old.items ++ lines_text (lines_from c s (if drains then drain_steps c s else []))) }
{
    if drains {
        push_drain(text, run)
    } else {
        Ok(())
    }
}

fn ending<R: Noting>(run: &R) -> Ending
    ensures { (c : Config) (s : State) → R.stands run.now c s → result ≡ ending_at c s }
{
    if run.stopped() {
        Ending::Done
    } else {
        Ending::Open
    }
}

/// Runs along a schedule, from the start on, and writes the trace of it.
pub fn write<R: Noting>(alloc: Global, run: &mut R, schedule: &Schedule) -> Result<Bytes, Memory>
    requires valid { R.valid run.old }
    requires unforged { All (λ x. is_forged x ≡ false) schedule.now.steps }
    requires epochs { R.epoch run.old + length schedule.now.steps < 2 ^ 32 }
    ensures { (c : Config) → R.stands run.old c (start c) → 0 < workers c → IfOk result (λ text. text ≡ trace_of c schedule.now) }
{
    let mut text = Vec::new(alloc);
    push_steps(&mut text, run, schedule.steps.as_slice())?;
    push_rest(&mut text, run, schedule.drain)?;
    push_ending(&mut text, ending(run))?;
    Ok(Bytes::from_vec(text))
}
