//! Ops and updates at the ends of their ranges.
use crate::text::{cells, installed, step};
use std::alloc::Global;

/// The cells after the rows that give so many times a word 3.
fn left(alloc: Global, lines: &str, times: u32, word: &str) -> anyhow::Result<String> {
    let mut pipe = installed(alloc, lines)?;
    let word = word.parse::<i64>()?;
    for _row in 0..times {
        step(&mut pipe, [1, 0, 1, word].as_slice());
    }
    let cells = cells(alloc, &pipe)?;
    Ok(format!(in alloc; "{cells:?}")?)
}

/// The one cell of a program that puts the value of an op there.
pub(crate) fn op(alloc: Global, said: &str) -> anyhow::Result<String> {
    let (word, op) = said.split_once(' ').unwrap_or((said, ""));
    let lines = format!(in alloc;
        "width 4|array 1 1|stage|op 9 {op}|access 0 #0 #1 always - put:w9 put:w9 10 11|verdict 11"
    )?;
    left(alloc, lines.as_str(), 1, word)
}

/// The one cell of a program whose first row finds its cell free and puts a value there, and whose second row updates it.
pub(crate) fn update(alloc: Global, said: &str) -> anyhow::Result<String> {
    let (first, rest) = said.split_once(' ').unwrap_or((said, ""));
    let (word, update) = rest.split_once(' ').unwrap_or((rest, ""));
    let lines = format!(in alloc;
        "width 4|array 1 1|stage|access 0 #0 #1 less:0 #-9223372036854775808 put:#{first} {update} 10 11|verdict 11"
    )?;
    left(alloc, lines.as_str(), 2, word)
}
