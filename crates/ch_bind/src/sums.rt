ghost use Rattle.std.specs.Prelude.{◌≡◌, ◌<◌, length, slice_index_or, []};
ghost use Rattle.ch_cells.specs.CellRef.{cell_of};
ghost use Rattle.ch_bind.specs.First.{first};
ghost use Rattle.ch_bind.specs.Sums as spec;
ghost use Rattle.ch_bind.specs.Sums.{answered, sum_refusal};

use crate::error::SumError;
use ch_cells::{CellRef, Listed};
use ch_pred::{Bound, Col, Shape};
use ch_tables::Table;

fn is_negative(cell: CellRef<'_>) -> bool
    ensures { result ≡ spec.is_negative (cell_of cell.entry) }
{
    match cell {
        CellRef::Number(n) => n < 0,
        CellRef::Text(_) => false,
    }
}

/// The first row of a part with a negative cell in the column.
fn negative_row(table: &Table, part: u32, at: u32) -> Option<u32>
    requires part { part < length table.now.parts }
    requires at { at < length table.now.header }
    ensures { result ≡ first (spec.has_negative at) (slice_index_or table.now.parts part []) }
{
    for row in 0..table.rows(part) {
        if is_negative(table.cell(part, row, at)) {
            return Some(row);
        }
    }
    None
}

/// The first negative cell of the column, part after part.
fn negative_cell(table: &Table, at: u32) -> Option<SumError>
    requires { at < length table.now.header }
    ensures { result ≡ spec.negative_from at 0 table.now.parts }
{
    for part in 0..table.parts() {
        if let Some(row) = negative_row(table, part, at) {
            return Some(SumError::NegativeSum { part, row });
        }
    }
    None
}

/// The refusal of a column that is summed, where the table and the column are there.
fn column_refusal(bound: &Bound, tables: &Listed<Table>, col: Col) -> Option<SumError>
    ensures { result ≡ spec.column_refusal bound.now tables.now col }
{
    let number = *bound.tables.as_slice().get(col.side as usize)?;
    let table = tables.as_slice().get(number as usize)?;
    if (col.at as usize) < table.header().len() {
        negative_cell(table, col.at)
    } else {
        None
    }
}

fn summed_column(bound: &Bound) -> Option<Col>
    ensures { result ≡ spec.summed_column bound.now.shape }
{
    match &bound.shape {
        Shape::Having {
            keys: _,
            sum,
            above: _,
        } => *sum,
        _ => None,
    }
}

/// Whether no cell of the summed column is negative: the first one that is, part after part and row after row, whether its
/// row holds or not. A query that sums nothing passes.
pub fn check_sums(bound: &Bound, tables: &Listed<Table>) -> Result<(), SumError>
    ensures { result ≡ answered (sum_refusal bound.now tables.now) }
{
    match summed_column(bound) {
        Some(col) => match column_refusal(bound, tables, col) {
            Some(error) => Err(error),
            None => Ok(()),
        },
        None => Ok(()),
    }
}
