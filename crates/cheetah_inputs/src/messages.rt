ghost use Rattle.std.specs.Prelude.{◌≡◌, ◌≢◌, ◌++◌, IfOk, OnOk, string_bytes};
ghost use Rattle.cheetah_inputs.specs.Limits.{plan_line};
ghost use Rattle.cheetah_inputs.specs.Messages.{bind_line, schedule_line, sum_line, sum_tail, why_text};

use ch_bind::{BindError, SumError};
use ch_cells::{Bytes, Memory};
use ch_messages::limit_text;
use ch_plan::PlanError;
use ch_schedule::{ScheduleError, ScheduleWhy};
use std::alloc::Global;

/// Why a line is refused.
fn why_text(why: ScheduleWhy) -> &'static str
    ensures { result.now ≡ why_text why }
{
    match why {
        ScheduleWhy::NotAStep => "not a step",
        ScheduleWhy::AfterDrain => "after drain",
        ScheduleWhy::TooMany => "too many",
        ScheduleWhy::Forged => "forged packet",
    }
}

/// That a line of a schedule is bad. Lines count from 1. Want of memory has no line.
pub fn schedule_line(alloc: Global, error: ScheduleError) -> Result<Bytes, Memory>
    ensures line { IfOk result (λ said. said ≡ schedule_line error) }
    ensures known { OnOk result (error ≢ ScheduleError.Memory) }
{
    match error {
        ScheduleError::Bad { line, why } => {
            let why = why_text(why);
            let said = format!(in alloc; "input: schedule line {line}: {why}\n")?;
            Ok(Bytes::from_vec(said.into_bytes()))
        }
        ScheduleError::Memory => Err(Memory),
    }
}

fn bind_text(alloc: Global, error: BindError) -> Result<String, Memory>
    ensures text { IfOk result (λ text. string_bytes text ≡ bind_line error) }
    ensures known { OnOk result (error ≢ BindError.Memory) }
{
    match error {
        BindError::NoTable { which } => {
            Ok(format!(in alloc; "input: query table {which}: unknown\n")?)
        }
        BindError::SelfJoin => Ok(format!(in alloc; "input: query: self join\n")?),
        BindError::NoColumn { place } => {
            Ok(format!(in alloc; "input: query column {place}: unknown\n")?)
        }
        BindError::Ambiguous { place } => {
            Ok(format!(in alloc; "input: query column {place}: ambiguous\n")?)
        }
        BindError::BadOn => {
            Ok(format!(in alloc; "input: query: on needs a column of each table\n")?)
        }
        BindError::BadItem { item } => {
            Ok(format!(in alloc; "input: query item {item}: not allowed\n")?)
        }
        BindError::KindClash { place } => {
            Ok(format!(in alloc; "input: query column {place}: wrong kind\n")?)
        }
        BindError::TooManyColumns { side, have } => {
            Ok(format!(in alloc; "input: query side {side}: {have} columns, at most 16\n")?)
        }
        BindError::TooManyDims { have } => {
            Ok(format!(in alloc; "input: query: {have} dimensions, at most 4\n")?)
        }
        BindError::LimitRange { n } => Ok(format!(in alloc; "input: query: limit {n}\n")?),
        BindError::Memory => Err(Memory),
    }
}

/// Why a query is bound to no tables. Want of memory has no line.
pub fn bind_line(alloc: Global, error: BindError) -> Result<Bytes, Memory>
    ensures line { IfOk result (λ said. said ≡ bind_line error) }
    ensures known { OnOk result (error ≢ BindError.Memory) }
{
    let said = bind_text(alloc, error)?;
    Ok(Bytes::from_vec(said.into_bytes()))
}

fn sum_tail(alloc: Global, error: SumError) -> Result<String, Memory>
    ensures { IfOk result (λ text. string_bytes text ≡ sum_tail error) }
{
    let SumError::NegativeSum { part, row } = error;
    Ok(format!(in alloc; " part {part} row {row}: negative sum\n")?)
}

/// That a summed cell of the table of this name is negative.
pub fn sum_line(alloc: Global, name: &[u8], error: SumError) -> Result<Bytes, Memory>
    ensures { IfOk result (λ said. said ≡ sum_line name.now error) }
{
    let tail = sum_tail(alloc, error)?;
    let mut said = Vec::from_slice(alloc, b"input: table ")?;
    said.extend_from_slice(name)?;
    said.extend_from_slice(tail.as_bytes())?;
    Ok(Bytes::from_vec(said))
}

/// The limit that a plan exceeds. Want of memory has no line.
pub fn plan_line(alloc: Global, error: PlanError) -> Result<Bytes, Memory>
    ensures line { IfOk result (λ said. said ≡ plan_line error) }
    ensures known { OnOk result (error ≢ PlanError.Memory) }
{
    match error {
        PlanError::Limit { which, need, have } => {
            let which = limit_text(which);
            let said = format!(in alloc; "plan refused: {which} need {need} have {have}\n")?;
            Ok(Bytes::from_vec(said.into_bytes()))
        }
        PlanError::Memory => Err(Memory),
    }
}
