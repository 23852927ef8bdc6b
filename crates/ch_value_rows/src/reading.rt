//! Words, places, cells, rows and tables of a line.
ghost use Rattle.std.specs.Prelude.{◌<◌, ◌-◌, ◌^◌, length, IfOk};
ghost use Rattle.std.specs.List.{All};

use ch_cells::{Bytes, Cell, Listed, Memory, Row};
use ch_tables::{Room, Table, TableError, read_table};
use std::alloc::Global;

/// What is before a piece of text, and what is behind it.
pub(crate) fn cut<'a>(said: &'a str, at: &str) -> (&'a str, &'a str) {
    said.split_once(at).unwrap_or((said, ""))
}

pub(crate) fn words_of(alloc: Global, said: &str) -> anyhow::Result<Vec<i64>> {
    let mut words = Vec::new(alloc);
    for word in said.split_whitespace() {
        words.push(word.parse::<i64>()?)?;
    }
    Ok(words)
}

pub(crate) fn places_of(alloc: Global, said: &str) -> anyhow::Result<Vec<usize>> {
    let mut places = Vec::new(alloc);
    for place in said.split_whitespace() {
        places.push(place.parse::<usize>()?)?;
    }
    Ok(places)
}

/// The bytes of a text whose line ends are written as `|` and whose carriage returns as `^`.
pub(crate) fn bytes_of(alloc: Global, text: &str) -> Result<Bytes, Memory> {
    let mut bytes = Vec::new(alloc);
    for byte in text.as_bytes() {
        bytes.push(match *byte {
            b'|' => b'\n',
            b'^' => b'\r',
            other => other,
        })?;
    }
    Ok(Bytes::from_vec(bytes))
}

pub(crate) fn cell_of(alloc: Global, said: &str) -> anyhow::Result<Cell> {
    match said.strip_prefix('#') {
        Some(number) => Ok(Cell::Number(number.parse::<i64>()?)),
        None => Ok(Cell::Text(bytes_of(alloc, said)?)),
    }
}

pub(crate) fn cells_of(alloc: Global, said: &str) -> anyhow::Result<Row> {
    let mut cells = Listed::new(alloc);
    for cell in said.split(';') {
        cells.push(cell_of(alloc, cell)?)?;
    }
    Ok(cells)
}

/// Cells, and none where nothing is said.
fn row_of(alloc: Global, said: &str) -> anyhow::Result<Row> {
    if said.is_empty() {
        return Ok(Listed::new(alloc));
    }
    cells_of(alloc, said)
}

pub(crate) fn rows_of(alloc: Global, said: &str) -> anyhow::Result<Vec<Row>> {
    let mut rows = Vec::new(alloc);
    for row in said.split('/') {
        rows.push(row_of(alloc, row)?)?;
    }
    Ok(rows)
}

/// The texts of a few short parts.
fn parts_of(alloc: Global, said: &str) -> Result<Listed<Bytes>, Memory>
    ensures { IfOk result (λ texts. All (λ text. length text < 2 ^ 32 - 1) texts) }
{
    let mut texts = Listed::new(alloc);
    for part in said.split(';') {
        let bytes = bytes_of(alloc, part)?;
        if bytes.len() > 1000 {
            return Err(Memory);
        }
        texts.push(bytes)?;
    }
    Ok(texts)
}

/// The table `t` of these parts.
fn read_within(alloc: Global, said: &str, room: Room) -> Result<Table, TableError> {
    let texts = parts_of(alloc, said)?;
    if texts.len() == 0 || texts.len() > 1000 {
        return Err(TableError::Memory);
    }
    read_table(alloc, b"t", &texts, room)
}

/// The table of `ROWS CELLS PARTS`.
pub(crate) fn table_of(alloc: Global, said: &str) -> anyhow::Result<Table> {
    let (rows, behind) = cut(said, " ");
    let (cells, parts) = cut(behind, " ");
    let room = Room {
        rows: rows.parse::<u32>()?,
        cells: cells.parse::<u32>()?,
    };
    Ok(read_within(alloc, parts, room)?)
}
