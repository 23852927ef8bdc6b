//! Schedules.
use ch_schedule::read_schedule;
use std::alloc::Global;

/// Longer texts aren't read.
const LONGEST: usize = 100_000_000;

/// How many steps a text has and whether it ends in `drain`, or why it is no schedule.
pub(crate) fn schedule(alloc: Global, text: &[u8]) -> anyhow::Result<String> {
    if text.len() > LONGEST {
        return Ok(String::from_str(alloc, "too long")?);
    }
    match read_schedule(alloc, text) {
        Ok(schedule) => {
            let (steps, drain) = (schedule.steps.len(), schedule.drain);
            Ok(format!(in alloc; "steps {steps}, drain {drain}")?)
        }
        Err(error) => Ok(format!(in alloc; "{error:?}")?),
    }
}

/// The steps of a schedule.
pub(crate) fn steps(alloc: Global, text: &[u8]) -> anyhow::Result<String> {
    if text.len() > LONGEST {
        return Ok(String::from_str(alloc, "too long")?);
    }
    let schedule = read_schedule(alloc, text)?;
    Ok(format!(in alloc; "{:?}", schedule.steps.as_slice())?)
}
