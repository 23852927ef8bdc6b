ghost use Rattle.std.specs.Prelude.{◌≡◌, ◌<◌, [], length, slice_index_or, IfOk};
ghost use Rattle.ch_pred.specs.Holds.{holds_of};
ghost use Rattle.ch_pred.specs.Names.{Names};
ghost use Rattle.ch_pred.specs.Part.{part_of};
ghost use Rattle.ch_pred.specs.Plain.{plain_of};
ghost use Rattle.ch_pred.specs.Values.{cells_seen};

use ch_cells::{CellRef, Memory};
use ch_pred::{BoundPred, Cells, holds, part};
use ch_tables::Table;
use std::alloc::Global;

/// A row of a table as the cells of a side.
#[derive(Drop)]
pub struct SideRow<'a> {
    table: &'a Table,
    side: u8,
    part: u32,
    row: u32,
    ghost part_is_there: { part < length table.now.parts },
    ghost row_is_there: { row < length (slice_index_or table.now.parts part []) },
}

impl<'a> SideRow<'a> {
    pub fn new(table: &'a Table, side: u8, part: u32, row: u32) -> SideRow<'a>
        requires part { part < length table.now.parts }
        requires row { row < length (slice_index_or table.now.parts part []) }
        ensures table { result.table ≡ table.entry }
        ensures side { result.side ≡ side }
        ensures part { result.part ≡ part }
        ensures row { result.row ≡ row }
    {
        SideRow {
            table,
            side,
            part,
            row,
        }
    }
}

impl Cells for SideRow<'_> {
    ghost use Rattle.ch_pred.specs.Values.{cells_seen};

    ghost has = { λ r side at. (side ≡ r.side) × (at < length r.table.now.header) };

    ghost cell_at = { λ r. cells_seen (slice_index_or (slice_index_or r.table.now.parts r.part []) r.row []) };

    fn cell(&self, _side: u8, at: u32) -> CellRef<'_> {
        self.table.cell(self.part, self.row, at)
    }
}

/// The part of a filter that a side can tell, which a worker makes once: whether it holds on a row is that row's bit.
pub fn own_part(alloc: Global, filter: &BoundPred, side: u8) -> Result<BoundPred, Memory>
    ensures { IfOk result (λ own. plain_of own ≡ part_of (plain_of filter.now) side) }
{
    part(alloc, filter, side)
}

/// The bit of a row: whether the part of its side holds on it. It takes no memory.
pub fn row_bit(own: &BoundPred, table: &Table, side: u8, part: u32, row: u32) -> bool
    requires names { Names (λ s at. (s ≡ side) × (at < length table.now.header)) (plain_of own.now) }
    requires part { part < length table.now.parts }
    requires row { row < length (slice_index_or table.now.parts part []) }
    ensures { result ≡ holds_of (cells_seen (slice_index_or (slice_index_or table.now.parts part []) row [])) (plain_of own.now) }
{
    holds(own, &SideRow::new(table, side, part, row))
}
