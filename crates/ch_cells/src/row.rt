ghost use Rattle.std.specs.Prelude.{◌≡◌, List, IfOk, OnOk, OnErr, IsPermutation, IsSorted};
ghost use Rattle.ch_lists.specs.Ordered.{IsExactOrder};
ghost use Rattle.ch_cells.specs.Row.{row_cmp, ascending};
ghost use Rattle.ch_cells.specs.declared.cell.Cell.{Cell};

use crate::bytes::Bytes;
use crate::cell::{Cell, copy_cell};
use crate::listed::Listed;
use crate::memory::Memory;
use std::alloc::Global;
use std::cmp::Ordering;

/// The names of columns.
pub type Header = Listed<Bytes>;

/// A row of a table or of an answer.
pub type Row = Listed<Cell>;

/// Compares from left to right. A row that another one begins with is smaller.
pub fn cmp_rows(a: &Row, b: &Row) -> Ordering
    ensures { result ≡ row_cmp a.now b.now }
{
    a.as_slice().cmp(b.as_slice())
}

pub fn copy_row(alloc: Global, row: &Row) -> Result<Row, Memory>
    ensures { IfOk result (λ copy. copy ≡ row.now) }
{
    let mut copy = Listed::new(alloc);
    for cell in row.as_slice() {
        copy.push(copy_cell(alloc, cell)?)?;
    }
    Ok(copy)
}

/// Puts the rows in ascending order.
pub fn sort_rows(rows: &mut Vec<Row>) -> Result<(), Memory>
    ensures ok { OnOk result (rows.new.items ≡ ascending rows.old.items) }
    ensures err { OnErr result (rows.new.items ≡ rows.old.items) }
{
    rows.sort()?;
    Ok(())
}

/// The order of rows is a total one in which only a row itself compares equal to it, and `ascending` gives the same rows
/// in this order: the laws of `ch_lists` hold for it.
pub fn rows_are_ordered()
    ensures order { IsExactOrder row_cmp }
    ensures sorted { (rows : List (List Cell)) → IsSorted row_cmp (ascending rows) }
    ensures same { (rows : List (List Cell)) → IsPermutation rows (ascending rows) }
{}
