ghost use Rattle.std.specs.Prelude.{◌≡◌, IfOk};
ghost use Rattle.ch_lists.specs.Ordered.{IsExactOrder};
ghost use Rattle.ch_cells.specs.Cell.{cell_cmp};

use crate::bytes::Bytes;
use crate::cell_ref::{cmp_lent, copy_lent, lend_cell};
use crate::memory::Memory;
use std::alloc::Global;
use std::cmp::Ordering;

/// A number of at most `2^61 - 1` in magnitude, or a text of bytes. Each cell that a table holds is one; the type itself
/// doesn't bound the number.
#[derive(Debug)]
pub enum Cell {
    Number(i64),
    Text(Bytes),
}

impl Drop for Cell {
    fn drop(self) {
        match self {
            Cell::Number(_) => {}
            Cell::Text(_) => {}
        }
    }
}

/// What the cells of a column are. A column without rows is `Void`.
#[derive(Clone, Copy, PartialEq, Eq)]
pub enum Kind {
    Number,
    Text,
    Void,
}

/// Numbers stand before texts, by value. Texts are compared bytewise.
pub fn cmp_cells(a: &Cell, b: &Cell) -> Ordering
    ensures { result ≡ cell_cmp a.now b.now }
{
    cmp_lent(lend_cell(a), lend_cell(b))
}

impl Ord for Cell {
    ghost use Rattle.std.proofs.Common.{refl};
    ghost use Rattle.ch_cells.specs.Cell.{cell_cmp};
    ghost use Rattle.ch_cells.specs.CellOrder.{cell_total};

    ghost cmp = { cell_cmp };

    ghost total = { cell_total };

    ghost matches_partial_cmp = { λ x y. refl };

    ghost matches_eq = { λ x y. refl };

    fn cmp(&self, other: &Cell) -> Ordering {
        cmp_cells(self, other)
    }
}

impl PartialOrd for Cell {
    ghost use Rattle.std.specs.Ordering.{as_partial_cmp};
    ghost use Rattle.std.specs.Cmp.{partial_order_from_total};
    ghost use Rattle.ch_cells.specs.Cell.{cell_cmp};
    ghost use Rattle.ch_cells.specs.CellOrder.{cell_total};

    ghost partial_cmp = { as_partial_cmp cell_cmp };

    ghost laws = { partial_order_from_total cell_total };

    fn partial_cmp(&self, other: &Cell) -> Option<Ordering> {
        Some(cmp_cells(self, other))
    }
}

impl Eq for Cell {
    ghost use Rattle.std.specs.Cmp.{eq_by_cmp_equiv};
    ghost use Rattle.ch_cells.specs.CellOrder.{cell_total};

    ghost laws = { eq_by_cmp_equiv cell_total };
}

impl PartialEq for Cell {
    ghost use Rattle.std.specs.Ordering.{eq_by_cmp};
    ghost use Rattle.std.specs.Cmp.{eq_by_cmp_equiv, partial_equiv_from_equiv};
    ghost use Rattle.ch_cells.specs.Cell.{cell_cmp};
    ghost use Rattle.ch_cells.specs.CellOrder.{cell_total};

    ghost eq = { eq_by_cmp cell_cmp };

    ghost laws = { partial_equiv_from_equiv (eq_by_cmp_equiv cell_total) };

    fn eq(&self, other: &Cell) -> bool {
        cmp_cells(self, other).is_eq()
    }
}

/// The order of cells is a total one, and only a cell itself compares equal to it.
pub fn cells_are_ordered()
    ensures { IsExactOrder cell_cmp }
{}

pub fn copy_cell(alloc: Global, cell: &Cell) -> Result<Cell, Memory>
    ensures { IfOk result (λ copy. copy ≡ cell.now) }
{
    copy_lent(alloc, lend_cell(cell))
}
