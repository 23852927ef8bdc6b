ghost use Rattle.std.specs.Prelude.{◌≡◌, ◌+◌, ◌≤◌, ◌<◌, ◌^◌, length, sum_by, IfOk, OnOk};
ghost use Rattle.std.specs.List.{flat_map};
ghost use Rattle.ch_tables.specs.Columns.{AllStandFor, ArePlaces, IsWordIn, SpellNumbers, StandsFor, column_len};
ghost use Rattle.ch_tables.specs.Texts.{texts_in, with_texts};

use crate::text_column::TextColumn;
use crate::texts::Texts;
use ch_cells::{Memory, read_number};
use std::alloc::Global;

/// A column as words.
#[derive(Drop)]
pub(crate) enum Column {
    /// Each word is the cell.
    Numbers(Vec<i64>),
    /// Each word is the place of the cell's text.
    Places(Vec<u32>),
}

/// The numbers that texts spell, if each spells one.
fn numbers_of(alloc: Global, column: &TextColumn) -> Result<Option<Vec<i64>>, Memory>
    ensures { IfOk result (λ numbers. SpellNumbers column.now numbers) }
{
    let mut numbers = Vec::new(alloc);
    for at in 0..column.len() {
        match read_number(column.get(at)) {
            Some(number) => numbers.push(number)?,
            None => return Ok(None),
        }
    }
    Ok(Some(numbers))
}

/// The places of texts, which are added if they aren't there.
fn places_of(alloc: Global, column: &TextColumn, texts: &mut Texts) -> Result<Vec<u32>, Memory>
    requires { length texts.old + length column.now < 2 ^ 32 }
    ensures places { IfOk result (λ places. ArePlaces texts.new column.now places.items) }
    ensures texts { OnOk result (texts.new ≡ with_texts texts.old column.now) }
    ensures few { OnOk result (length texts.new ≤ length texts.old + length column.now) }
{
    let mut places = Vec::new(alloc);
    for at in 0..column.len() {
        let place = texts.place(alloc, column.get(at))?;
        places.push(place as u32)?;
    }
    Ok(places)
}

/// The words of a column.
fn words_of(alloc: Global, column: &TextColumn, texts: &mut Texts) -> Result<Column, Memory>
    requires { length texts.old + length column.now < 2 ^ 32 }
    ensures words { IfOk result (λ words. StandsFor texts.new words column.now) }
    ensures texts { OnOk result (texts.new ≡ with_texts texts.old (texts_in column.now)) }
    ensures few { OnOk result (length texts.new ≤ length texts.old + length column.now) }
{
    match numbers_of(alloc, column)? {
        Some(numbers) => Ok(Column::Numbers(numbers)),
        None => Ok(Column::Places(places_of(alloc, column, texts)?)),
    }
}

/// The words of all columns.
pub(crate) fn all_words(
    alloc: Global,
    columns: &[TextColumn],
    texts: &mut Texts,
) -> Result<Vec<Column>, Memory>
    requires { length texts.old + sum_by length columns.now < 2 ^ 32 }
    ensures words { IfOk result (λ words. AllStandFor texts.new words.items columns.now) }
    ensures texts { OnOk result (texts.new ≡ with_texts texts.old (flat_map texts_in columns.now)) }
    ensures few { OnOk result (length texts.new ≤ length texts.old + sum_by length columns.now) }
{
    let mut words = Vec::new(alloc);
    for column in columns {
        words.push(words_of(alloc, column, texts)?)?;
    }
    Ok(words)
}

/// The word at a place.
pub(crate) fn word_in(column: &Column, at: usize) -> i64
    requires { at < column_len column.now }
    ensures { IsWordIn column.now at result }
{
    match column {
        Column::Numbers(numbers) => numbers.as_slice()[at],
        Column::Places(places) => i64::from(places.as_slice()[at]),
    }
}
