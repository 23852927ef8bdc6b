//! Rows of words of one width.
use crate::reading::{cut, places_of, words_of};
use ch_cells::Memory;
use ch_flat::{Rows, picked};
use std::alloc::Global;

/// Adds a row, if it has the width of those that are there.
fn add_row(rows: &mut Rows, words: &[i64], places: &[usize]) -> Result<(), Memory> {
    if places.len() == rows.width() && rows.len() < 9 {
        rows.push_picked(words, places)?;
    }
    Ok(())
}

/// The rows of `WORDS/PLACES/PLACES..`.
fn rows_of(alloc: Global, width: usize, said: &str) -> anyhow::Result<Rows> {
    let mut rows = Rows::new(alloc, width);
    let mut pieces = said.split('/');
    let words = words_of(alloc, pieces.next().unwrap_or(""))?;
    for piece in pieces {
        let places = places_of(alloc, piece)?;
        add_row(&mut rows, words.as_slice(), places.as_slice())?;
    }
    Ok(rows)
}

pub(crate) fn flat(alloc: Global, said: &str) -> anyhow::Result<String> {
    let (width, said) = cut(said, "/");
    let rows = rows_of(alloc, width.parse::<usize>()?, said)?;
    let sorted = rows.sorted(alloc)?;
    let mut line = format!(in alloc; "{} rows", rows.len())?;
    for at in 0..sorted.len() {
        let row = sorted.row(at);
        line.push_str(format!(in alloc; " {row:?}")?.as_str())?;
    }
    line.push('\n')?;
    Ok(line)
}

pub(crate) fn words_picked(alloc: Global, said: &str) -> anyhow::Result<String> {
    let (words, places) = cut(said, "/");
    let words = words_of(alloc, words)?;
    let places = places_of(alloc, places)?;
    let row = picked(alloc, words.as_slice(), places.as_slice())?;
    Ok(format!(in alloc; "{:?}\n", row.as_slice())?)
}
