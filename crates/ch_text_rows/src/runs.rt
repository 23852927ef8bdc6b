//! Traces that are written and checked along a run.
use crate::told::run_over;
use ch_audit::refused_line;
use ch_audit_runs::{check, write};
use ch_cells::{Bytes, Listed, Memory};
use ch_schedule::Schedule;
use std::alloc::Global;
use std::str;

/// The bytes of a text whose line ends are written as `|`.
fn lines_of(alloc: Global, text: &str) -> Result<Vec<u8>, Memory> {
    let mut bytes = Vec::new(alloc);
    for byte in text.as_bytes() {
        bytes.push(if *byte == b'|' { b'\n' } else { *byte })?;
    }
    Ok(bytes)
}

/// In quotes.
fn quoted(alloc: Global, bytes: &Bytes) -> anyhow::Result<String> {
    Ok(format!(in alloc; "{:?}", str::from_utf8(bytes.as_slice())?)?)
}

pub(crate) fn refused(alloc: Global, said: &str) -> anyhow::Result<String> {
    let line = refused_line(alloc, said.parse::<usize>()?)?;
    quoted(alloc, &line)
}

/// The trace of a drain.
pub(crate) fn drained(alloc: Global, told: &str, said: &str) -> anyhow::Result<String> {
    let told = lines_of(alloc, told)?;
    let mut run = run_over(alloc, told.as_slice(), said.parse::<usize>()?);
    let schedule = Schedule {
        steps: Listed::new(alloc),
        drain: true,
    };
    let text = write(alloc, &mut run, &schedule)?;
    drop(schedule);
    quoted(alloc, &text)
}

/// What a text comes to along the run that is told: whether it is accepted, and what is said.
fn along(alloc: Global, told: &[u8], left: usize, text: &[u8]) -> Result<(bool, Bytes), Memory> {
    if text.len() > 4096 {
        return Err(Memory);
    }
    let mut run = run_over(alloc, told, left);
    let checked = check(alloc, &mut run, text)?;
    match checked.into_said() {
        Ok(said) => Ok((true, said)),
        Err(line) => Ok((false, line)),
    }
}

pub(crate) fn checked(alloc: Global, told: &str, said: &str) -> anyhow::Result<String> {
    let told = lines_of(alloc, told)?;
    let (left, text) = said.split_once(' ').unwrap_or((said, ""));
    let left = left.parse::<usize>()?;
    let text = lines_of(alloc, text)?;
    let (accepted, said) = along(alloc, told.as_slice(), left, text.as_slice())?;
    let said = quoted(alloc, &said)?;
    Ok(format!(in alloc; "accepted {accepted}, {said}")?)
}
