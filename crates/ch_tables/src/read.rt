ghost use Rattle.std.specs.Prelude.{◌≡◌, ◌≢◌, ◌<◌, ◌-◌, ◌^◌, All, length, Ok, Err, MatchResult};
ghost use Rattle.ch_tables.specs.Table.{table_of};

use crate::draft::read_parts;
use crate::error::{Room, TableError};
use crate::table::{Table, table_of_draft};
use ch_cells::{Bytes, Listed};
use std::alloc::Global;

/// Reads a table from the texts of its parts, which `csv` splits into records: the first of each part is its header.
pub fn read_table(
    alloc: Global,
    name: &[u8],
    parts: &Listed<Bytes>,
    room: Room,
) -> Result<Table, TableError>
    requires some { 0 < length parts.now }
    requires few { length parts.now < 2 ^ 32 - 1 }
    requires short { All (λ text. length text < 2 ^ 32 - 1) parts.now }
    ensures { MatchResult result
        (λ table. table_of name.now room parts.now ≡ Ok table)
        (λ e. e ≢ TableError.Memory → table_of name.now room parts.now ≡ Err e) }
{
    let draft = read_parts(alloc, parts.as_slice(), room)?;
    Ok(table_of_draft(alloc, name, draft)?)
}
