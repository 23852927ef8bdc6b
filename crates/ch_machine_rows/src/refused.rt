//! What programs need, and what is refused in them.
use crate::text::program;
use ch_ir::{Profile, default_profile};
use ch_verify::{is_countable, measure, verify};
use std::alloc::Global;

pub(crate) fn needs(alloc: Global, lines: &str) -> anyhow::Result<String> {
    let program = program(alloc, lines)?;
    if is_countable(&program) {
        Ok(format!(in alloc; "{:?}", measure(&program))?)
    } else {
        Ok(String::from_str(alloc, "too much to be counted")?)
    }
}

/// What `verify` refuses in a program, if anything.
fn refusal(alloc: Global, lines: &str, profile: &Profile) -> anyhow::Result<String> {
    let program = program(alloc, lines)?;
    if !is_countable(&program) {
        drop(program);
        return Ok(String::from_str(alloc, "too much to be counted")?);
    }
    match verify(alloc, program, profile) {
        Ok(checked) => {
            drop(checked);
            Ok(String::from_str(alloc, "checked")?)
        }
        Err(refused) => Ok(format!(in alloc; "{refused:?}")?),
    }
}

pub(crate) fn verified(alloc: Global, lines: &str) -> anyhow::Result<String> {
    refusal(alloc, lines, &default_profile())
}

/// The default profile with other limits.
fn profile_of(limits: &[u32]) -> Profile {
    let mut profile = default_profile();
    if let [width, cells, words, stages, ops] = limits {
        profile.width = *width;
        profile.cells = *cells;
        profile.words = *words;
        profile.stages = *stages;
        profile.ops = *ops;
    }
    profile
}

pub(crate) fn limited(alloc: Global, lines: &str, said: &str) -> anyhow::Result<String> {
    let mut limits = Vec::new(alloc);
    for limit in said.split(' ') {
        limits.push(limit.parse::<u32>()?)?;
    }
    refusal(alloc, lines, &profile_of(limits.as_slice()))
}

/// The same of a program with one op and one access.
pub(crate) fn access(alloc: Global, said: &str) -> anyhow::Result<String> {
    let (op, access) = said.split_once("; ").unwrap_or((said, ""));
    let lines = format!(in alloc; "width 3|array 4 1|stage|op 9 {op}|access {access}|verdict 2")?;
    verified(alloc, lines.as_str())
}
