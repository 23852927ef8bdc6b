//! Programs that run over rows.
use crate::text::{cells, installed, numbers, step};
use ch_pipe::Pipe;
use std::alloc::Global;

/// A letter for each row: whether it is pruned or kept, or has too many words.
fn verdicts(alloc: Global, pipe: &mut Pipe, rows: &str) -> anyhow::Result<String> {
    let mut found = String::new(alloc);
    for row in rows.split(' ') {
        let words = numbers(alloc, row)?;
        found.push(match step(pipe, words.as_slice()) {
            Some(true) => 'p',
            Some(false) => 'k',
            None => '?',
        })?;
    }
    Ok(found)
}

/// The verdicts and the cells behind them, the cells when they are cleared, and the verdicts again.
pub(crate) fn run(alloc: Global, lines: &str, rows: &str) -> anyhow::Result<String> {
    let mut pipe = installed(alloc, lines)?;
    let found = verdicts(alloc, &mut pipe, rows)?;
    let left = cells(alloc, &pipe)?;
    pipe.clear();
    let cleared = cells(alloc, &pipe)?;
    let again = verdicts(alloc, &mut pipe, rows)?;
    Ok(format!(in alloc; "{found} {left:?}, {cleared:?} {again}")?)
}
