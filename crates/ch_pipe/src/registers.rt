ghost use Rattle.std.specs.Prelude.{◌≡◌, ◌<◌, [], pos, length, replicate, slice_index_or, IfOk};
ghost use Rattle.ch_ir.specs.Machine.{cells_of};
ghost use Rattle.ch_ir.specs.Rules.{entries_of};
ghost use Rattle.ch_pipe.specs.Flat.{IsLaid, cut};
ghost use Rattle.ch_pipe.specs.Installed.{widest};

use ch_cells::Memory;
use ch_ir::{Array, cells_of};
use std::alloc::Global;

/// So many zeros.
pub fn zeros(alloc: Global, many: usize) -> Result<Vec<i64>, Memory>
    ensures { IfOk result (λ v. v.items ≡ replicate many (pos 0)) }
{
    Ok(vec![in alloc; 0; many]?)
}

/// Where each array begins in one list of all cells, and how many cells that has.
#[derive(Drop)]
pub struct Layout {
    pub bases: Vec<usize>,
    pub size: usize,
}

/// Lays the arrays one behind the other. Cells that no memory could hold are want of memory.
pub fn lay_out(alloc: Global, arrays: &[Array]) -> Result<Layout, Memory>
    ensures { IfOk result (λ layout. IsLaid arrays.now layout.bases.items layout.size) }
{
    let mut bases = Vec::new(alloc);
    let mut size: usize = 0;
    for array in arrays {
        bases.push(size)?;
        let cells = array.entries as usize * array.cells as usize;
        size = size.checked_add(cells).ok_or(Memory)?;
    }
    Ok(Layout { bases, size })
}

/// The cells of the widest entry.
pub fn widest(arrays: &[Array]) -> u32
    ensures { result ≡ widest arrays.now }
{
    let mut cells = 0;
    for array in arrays {
        cells = cells.max(array.cells);
    }
    cells
}

/// One cell.
pub fn cell(
    arrays: &[Array],
    bases: &[usize],
    registers: &[i64],
    array: u32,
    entry: u32,
    at: u32,
) -> i64
    requires laid { IsLaid arrays.now bases.now (length registers.now) }
    requires array { array < length arrays.now }
    requires entry { entry < entries_of arrays.now array }
    requires at { at < cells_of arrays.now array }
    ensures { result ≡ slice_index_or (slice_index_or (slice_index_or (cut arrays.now registers.now) array []) entry []) at (pos 0) }
{
    let cells = cells_of(arrays, array) as usize;
    registers[bases[array as usize] + entry as usize * cells + at as usize]
}
