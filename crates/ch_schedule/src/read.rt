ghost use Rattle.std.specs.Prelude.{◌≡◌, ◌<◌, ◌-◌, ◌^◌, ◌++◌, ◌∷◌, [], true, false, None, length, IfErr, IfOk, OnOk};
ghost use Rattle.ch_lines.specs.Lines.{lines_of};
ghost use Rattle.ch_schedule.specs.Bad.{Adds, IsSchedule, Refuses, Stops, is_forged, line_why, refusal_of, step_why};

use crate::line::{Line, read_line};
use crate::step::{Schedule, Step};
use ch_cells::{Listed, Memory};
use ch_lines::{is_said, next_line};
use ch_packet::view;
use std::alloc::Global;
use thiserror::Error;

/// Why a line of a schedule text is refused. Where several hold, the first is answered.
#[derive(Clone, Copy, Debug, PartialEq, Eq)]
pub enum ScheduleWhy {
    /// The line is none of the grammar's.
    NotAStep,
    /// An earlier line is `drain`.
    AfterDrain,
    /// 1,000,000 steps stand before this one.
    TooMany,
    /// The bytes of an inject are a packet.
    Forged,
}

/// Why a schedule text is refused.
#[derive(Clone, Copy, Debug, PartialEq, Eq, Error)]
pub enum ScheduleError {
    /// The first bad line, counted from 1.
    #[error("line {line} of the schedule is bad: {why:?}")]
    Bad { line: u32, why: ScheduleWhy },
    #[error("out of memory")]
    Memory,
}

/// Why reading stops at a line.
#[derive(Clone, Copy, Debug, PartialEq, Eq, Error)]
pub enum Stop {
    #[error("{0:?}")]
    Bad(ScheduleWhy),
    #[error("out of memory")]
    Memory,
}

impl From<Memory> for Stop {
    ghost use Rattle.std.specs.Prelude.{◌≡◌};
    ghost use Rattle.ch_schedule.specs.declared.read.Stop.TheVariants.{Memory};

    ghost from_gives = { λ _ e. e ≡ Memory };

    fn from(_: Memory) -> Stop {
        Stop::Memory
    }
}

/// The steps that a schedule may have.
const MOST_STEPS: usize = 1_000_000;

fn is_forged(step: &Step) -> bool
    ensures { result ≡ is_forged step.now }
{
    match step {
        Step::Inject { link: _, bytes } => view(bytes.as_slice()).is_ok(),
        _ => false,
    }
}

fn add_step(schedule: &mut Schedule, step: Step) -> Result<(), Stop>
    ensures good { OnOk result (step_why schedule.old.drain (length schedule.old.steps) step ≡ None) }
    ensures steps { OnOk result (schedule.new.steps ≡ schedule.old.steps ++ step ∷ []) }
    ensures drain { schedule.new.drain ≡ schedule.old.drain }
    ensures bad { IfErr result (λ stop. Stops stop (step_why schedule.old.drain (length schedule.old.steps) step)) }
{
    if schedule.drain {
        drop(step);
        return Err(Stop::Bad(ScheduleWhy::AfterDrain));
    }
    if MOST_STEPS <= schedule.steps.len() {
        drop(step);
        return Err(Stop::Bad(ScheduleWhy::TooMany));
    }
    if is_forged(&step) {
        drop(step);
        return Err(Stop::Bad(ScheduleWhy::Forged));
    }
    schedule.steps.push(step)?;
    Ok(())
}

fn add_drain(schedule: &mut Schedule) -> Result<(), Stop>
    ensures good { OnOk result (schedule.old.drain ≡ false) }
    ensures steps { schedule.new.steps ≡ schedule.old.steps }
    ensures drain { schedule.new.drain ≡ true }
    ensures bad { IfErr result (λ stop. (stop ≡ Stop.Bad ScheduleWhy.AfterDrain) × (schedule.old.drain ≡ true)) }
{
    let again = schedule.drain;
    schedule.drain = true;
    if again {
        Err(Stop::Bad(ScheduleWhy::AfterDrain))
    } else {
        Ok(())
    }
}

/// Adds what a line says.
fn add_line(alloc: Global, schedule: &mut Schedule, text: &[u8]) -> Result<(), Stop>
    ensures good { OnOk result (Adds schedule.old schedule.new text.now) }
    ensures bad { IfErr result (λ stop. Stops stop (line_why schedule.old.drain (length schedule.old.steps) text.now)) }
{
    if !is_said(text) {
        return Ok(());
    }
    match read_line(alloc, text) {
        Ok(Some(Line::Step(step))) => add_step(schedule, step),
        Ok(Some(Line::Drain)) => add_drain(schedule),
        Ok(None) => Err(Stop::Bad(ScheduleWhy::NotAStep)),
        Err(_) => Err(Stop::Memory),
    }
}

/// Why the text is refused, where reading stops at this line.
fn refusal(line: u32, stop: Stop) -> ScheduleError
    ensures { result ≡ refusal_of line stop }
{
    match stop {
        Stop::Bad(why) => ScheduleError::Bad { line, why },
        Stop::Memory => ScheduleError::Memory,
    }
}

/// Reads a schedule text. It takes an allocation for each inject with bytes, and for another step none beyond the list's.
pub fn read_schedule(alloc: Global, text: &[u8]) -> Result<Schedule, ScheduleError>
    requires { length text.now < 2 ^ 32 - 1 }
    ensures read { IfOk result (λ schedule. IsSchedule (lines_of text.now) schedule) }
    ensures refused { IfErr result (λ error. Refuses (lines_of text.now) error) }
{
    let mut schedule = Schedule {
        steps: Listed::new(alloc),
        drain: false,
    };
    let mut rest = text;
    let mut at: u32 = 0;
    while let Some(cut) = next_line(rest) {
        match add_line(alloc, &mut schedule, cut.first) {
            Ok(()) => {}
            Err(stop) => return Err(refusal(at + 1, stop)),
        }
        rest = cut.rest;
        at += 1;
    }
    Ok(schedule)
}
