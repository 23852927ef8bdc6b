//! Tables, and the places of their texts.
ghost use Rattle.std.specs.Prelude.{◌<◌, [], length, slice_index_or};

use crate::reading::table_of;
use ch_cells::{CellRef, Kind};
use ch_tables::Table;
use std::alloc::Global;
use std::str;

fn kind_letter(kind: Kind) -> char {
    match kind {
        Kind::Number => 'N',
        Kind::Text => 'T',
        Kind::Void => 'V',
    }
}

/// The name, and the kinds of the columns.
fn head_of(alloc: Global, table: &Table) -> anyhow::Result<String> {
    let mut text = String::from_str(alloc, str::from_utf8(table.name())?)?;
    text.push(' ')?;
    let width = table.header().len();
    if width > 1000 {
        return Ok(text);
    }
    for col in 0..width {
        text.push(kind_letter(table.kind(col as u32)))?;
    }
    Ok(text)
}

fn push_cell(alloc: Global, text: &mut String, cell: CellRef<'_>) -> anyhow::Result<()> {
    let shown = match cell {
        CellRef::Number(number) => format!(in alloc; " {number}"),
        CellRef::Text(bytes) => format!(in alloc; " {bytes:?}"),
    };
    text.push_str(shown?.as_str())?;
    Ok(())
}

/// The name, the kinds of the columns, and behind a bar the cells of each part.
fn table_text(alloc: Global, table: &Table) -> anyhow::Result<String> {
    let mut text = head_of(alloc, table)?;
    let width = table.header().len();
    if width > 1000 {
        return Ok(text);
    }
    for part in 0..table.parts() {
        text.push_str(" /")?;
        for row in 0..table.rows(part) {
            for col in 0..width {
                push_cell(alloc, &mut text, table.cell(part, row, col as u32))?;
            }
        }
    }
    text.push('\n')?;
    Ok(text)
}

/// The table that parts are, or why they are none.
pub(crate) fn table(alloc: Global, said: &str) -> anyhow::Result<String> {
    match table_of(alloc, said) {
        Ok(table) => table_text(alloc, &table),
        Err(error) => Ok(format!(in alloc; "{error}\n")?),
    }
}

/// Adds the words of a row.
fn push_words(words: &mut Vec<i64>, table: &Table, part: u32, row: u32) -> anyhow::Result<()>
    requires part { part < length table.now.parts }
    requires row { row < length (slice_index_or table.now.parts part []) }
{
    for col in 0..table.header().len() {
        words.push(table.word(part, row, col as u32))?;
    }
    Ok(())
}

fn words_of(alloc: Global, table: &Table) -> anyhow::Result<Vec<i64>> {
    let mut words = Vec::new(alloc);
    for part in 0..table.parts() {
        for row in 0..table.rows(part) {
            push_words(&mut words, table, part, row)?;
        }
    }
    Ok(words)
}

/// The words of a table's cells, and its texts.
pub(crate) fn table_places(alloc: Global, said: &str) -> anyhow::Result<String> {
    let table = table_of(alloc, said)?;
    let words = words_of(alloc, &table)?;
    let mut text = format!(in alloc; "{:?}", words.as_slice())?;
    for at in 0..table.texts() {
        text.push(' ')?;
        text.push_str(str::from_utf8(table.text(at))?)?;
    }
    text.push('\n')?;
    Ok(text)
}
