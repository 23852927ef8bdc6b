ghost use Rattle.std.specs.Prelude.{◌≡◌, ◌≢◌, IfOk, OnOk, string_bytes};
ghost use Rattle.ch_messages.specs.Table.{table_line};

use ch_cells::{Bytes, Memory};
use ch_tables::TableError;
use std::alloc::Global;

fn table_text(alloc: Global, name: &str, error: TableError) -> Result<String, Memory>
    ensures text { IfOk result (λ text. string_bytes text ≡ table_line name.now error) }
    ensures known { OnOk result (error ≢ TableError.Memory) }
{
    match error {
        TableError::NoHeader { part } => {
            Ok(format!(in alloc; "input: table {name} part {part}: no header\n")?)
        }
        TableError::DuplicateColumn { at } => {
            Ok(format!(in alloc; "input: table {name} part 0: column {at} repeated\n")?)
        }
        TableError::HeaderDiffers { part } => {
            Ok(format!(in alloc; "input: table {name} part {part}: header differs\n")?)
        }
        TableError::Ragged {
            part,
            row,
            have,
            want,
        } => Ok(format!(in alloc;
            "input: table {name} part {part} row {row}: ragged, have {have} want {want}\n"
        )?),
        TableError::TooManyRows { part, row } => {
            Ok(format!(in alloc; "input: table {name} part {part} row {row}: too many rows\n")?)
        }
        TableError::TooManyCells { part, row } => {
            Ok(format!(in alloc; "input: table {name} part {part} row {row}: too many cells\n")?)
        }
        TableError::Memory => Err(Memory),
    }
}

/// Why the parts of a table are none. Want of memory has no line.
pub fn table_line(alloc: Global, name: &str, error: TableError) -> Result<Bytes, Memory>
    ensures line { IfOk result (λ said. said ≡ table_line name.now error) }
    ensures known { OnOk result (error ≢ TableError.Memory) }
{
    let said = table_text(alloc, name, error)?;
    Ok(Bytes::from_vec(said.into_bytes()))
}
