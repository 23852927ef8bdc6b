ghost use Rattle.std.specs.Prelude.{◌≡◌, IfOk};
ghost use Rattle.ch_cells.specs.Cell.{cell_cmp};
ghost use Rattle.ch_cells.specs.CellRef.{cell_of};

use crate::bytes::Bytes;
use crate::cell::Cell;
use crate::memory::Memory;
use std::alloc::Global;
use std::cmp::Ordering;

/// A cell that is lent.
#[derive(Clone, Copy, Debug)]
pub enum CellRef<'a> {
    Number(i64),
    Text(&'a [u8]),
}

pub fn lend_cell(cell: &Cell) -> CellRef<'_>
    ensures { cell_of result ≡ cell.now }
{
    match cell {
        Cell::Number(n) => CellRef::Number(*n),
        Cell::Text(text) => CellRef::Text(text.as_slice()),
    }
}

/// Compares lent cells as `cmp_cells` does cells.
pub fn cmp_lent(a: CellRef<'_>, b: CellRef<'_>) -> Ordering
    ensures { result ≡ cell_cmp (cell_of a.entry) (cell_of b.entry) }
{
    match (a, b) {
        (CellRef::Number(x), CellRef::Number(y)) => x.cmp(&y),
        (CellRef::Number(_), CellRef::Text(_)) => Ordering::Less,
        (CellRef::Text(_), CellRef::Number(_)) => Ordering::Greater,
        (CellRef::Text(x), CellRef::Text(y)) => x.cmp(y),
    }
}

/// A cell of its own that is equal to the lent one.
pub fn copy_lent(alloc: Global, cell: CellRef<'_>) -> Result<Cell, Memory>
    ensures { IfOk result (λ copy. copy ≡ cell_of cell.entry) }
{
    match cell {
        CellRef::Number(n) => Ok(Cell::Number(n)),
        CellRef::Text(text) => Ok(Cell::Text(Bytes::from_slice(alloc, text)?)),
    }
}
