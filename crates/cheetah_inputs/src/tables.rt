ghost use Rattle.std.specs.Prelude.{◌≡◌, ◌≤◌, ◌<◌, ◌*◌, ◌-◌, ◌^◌, All, IfOk, length, map, sum_by};
ghost use Rattle.ch_command.specs.Reading.{most_bytes};
ghost use Rattle.cheetah_inputs.specs.Parts.{AreShort, part_text, tables_in};
ghost use Rattle.cheetah_inputs.specs.Tables.{room_after, rows_of, table_or_line, tables_within};
ghost use Rattle.cheetah_inputs.specs.Refusals.{Reads};

use crate::parts::{Chosen, PartText, choose};
use crate::refusal::Refusal;
use ch_cells::{Bytes, Listed};
use ch_messages::table_line;
use ch_tables::{Room, Table, read_table};
use std::alloc::Global;
use std::collections::VecDeque;

/// How many rows a table has in all its parts.
fn rows_of(table: &Table) -> u64
    ensures { result ≡ length (rows_of table.now) }
{
    let mut rows = 0;
    for part in 0..table.parts() {
        rows += u64::from(table.rows(part));
    }
    rows
}

fn less(room: u32, taken: u64) -> u32
    ensures { result ≡ room - taken }
{
    u64::from(room).saturating_sub(taken) as u32
}

/// What a table leaves of the room for all of them.
fn room_after(room: Room, table: &Table) -> Room
    ensures { result ≡ room_after room table.now }
{
    let rows = rows_of(table);
    let cells = rows.saturating_mul(table.header().len() as u64);
    Room {
        rows: less(room.rows, rows),
        cells: less(room.cells, cells),
    }
}

/// The table of these texts, within the room.
fn read_one(alloc: Global, name: &str, texts: &Listed<Bytes>, room: Room) -> Result<Table, Refusal>
    requires some { 0 < length texts.now }
    requires few { length texts.now ≤ 64 }
    requires short { All (λ text. length text ≤ most_bytes) texts.now }
    ensures { Reads (table_or_line name.now room texts.now) result }
{
    match read_table(alloc, name.as_bytes(), texts, room) {
        Ok(table) => Ok(table),
        Err(error) => Err(Refusal::Line(table_line(alloc, name, error)?)),
    }
}

/// The tables of these parts, in the order of their first ones: each within the room that those before it leave.
pub(crate) fn read_tables(
    alloc: Global,
    parts: VecDeque<PartText<'_>>,
    room: Room,
) -> Result<Listed<Table>, Refusal>
    requires few { length parts.items ≤ 64 }
    requires short { AreShort (map part_text parts.items) }
    ensures { Reads (tables_within room (tables_in (map part_text parts.entry.items))) result }
{
    let mut tables = Listed::new(alloc);
    let mut left = parts;
    let mut room = room;
    while let Some(first) = left.pop_front() {
        let name = first.name;
        let Chosen { texts, others } = choose(alloc, first, left)?;
        let table = read_one(alloc, name, &texts, room)?;
        room = room_after(room, &table);
        tables.push(table)?;
        left = others;
    }
    Ok(tables)
}
