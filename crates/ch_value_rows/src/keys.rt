//! Different rows of words.
use crate::reading::{cut, words_of};
use ch_keys::Keys;
use std::alloc::Global;

fn added(alloc: Global, said: &str) -> anyhow::Result<Keys> {
    let mut keys = Keys::new(alloc);
    for row in said.split('/') {
        keys.add(words_of(alloc, row)?)?;
    }
    Ok(keys)
}

/// How many there are, those in their order, and whether one has the number behind the last.
pub(crate) fn keys(alloc: Global, said: &str) -> anyhow::Result<String> {
    let keys = added(alloc, said)?;
    let sorted = keys.sorted(alloc)?;
    let count = keys.len();
    let behind = keys.key(count).is_some();
    let rows = sorted.as_slice();
    Ok(format!(in alloc; "{count} keys {rows:?}, behind them {behind}\n")?)
}

pub(crate) fn find(alloc: Global, said: &str) -> anyhow::Result<String> {
    let (row, rows) = cut(said, " in ");
    let row = words_of(alloc, row)?;
    let keys = added(alloc, rows)?;
    let number = keys.find(row.as_slice());
    let there = keys.has(row.as_slice());
    let key = match number {
        Some(number) => keys.key(number),
        None => None,
    };
    Ok(format!(in alloc; "{number:?} {there} {key:?}\n")?)
}
