ghost use Rattle.std.specs.Prelude.{◌≡◌, ◌≤◌, ◌<◌, ◌^◌};
ghost use Rattle.op_semi.specs.Fine.{IsFine};

use crate::emitting::{arrays, stages};
use crate::sizes::Sizes;
use ch_cells::Memory;
use ch_ir::Program;
use ch_prune::{Front, Need, Operator, TwoPass};
use op_bloom::Sizes as Filters;
use std::alloc::Global;

/// Prunes, in the second pass, the rows whose key no row of the other table had in the first, as a join does; and the inner
/// rows whose key it has listed, which tell nothing new.
#[derive(Drop)]
pub struct Semi {
    front: Front,
    ops: u32,
    sizes: Sizes,
    ghost fine: { IsFine sizes },
    ghost many: { 48 ≤ ops },
}

impl Semi {
    /// Over rows of so many words, for a switch that runs `ops` ops in a stage. The key is the word `key` in an outer row, of
    /// side 0, and the word `inner` in an inner row, of side 1. Each of `rows` hash rows lists at most `cols` inner keys.
    pub fn new(
        front: Front,
        ops: u32,
        width: u32,
        hashes: u32,
        cells: u32,
        rows: u32,
        cols: u32,
        key: u32,
        inner: u32,
    ) -> Semi
        requires ops { 48 ≤ ops }
        requires wide { 3 ≤ width }
        requires narrow { width ≤ 20 }
        requires hashes { hashes ≤ 8 }
        requires some { 0 < cells }
        requires few { cells < 2 ^ 31 }
        requires rows { 0 < rows }
        requires small { rows < 2 ^ 31 }
        requires cols { cols ≤ 16 }
        requires key { (2 ≤ key) × (key < width) }
        requires inner { (2 ≤ inner) × (inner < width) }
        ensures sizes { result.sizes ≡ record { bloom = record { width = width; hashes = hashes; cells = cells; left = key; right = inner }; rows = rows; cols = cols } }
        ensures ops { result.ops ≡ ops }
    {
        let bloom = Filters {
            width,
            hashes,
            cells,
            left: key,
            right: inner,
        };
        Semi {
            front,
            ops,
            sizes: Sizes { bloom, rows, cols },
        }
    }
}

impl Operator for Semi {
    ghost use Rattle.op_bloom.specs.Filter.{has_side};
    ghost use Rattle.op_bloom.specs.Sides.{sent_has_side};
    ghost use Rattle.op_semi.specs.Policy.{prunes};
    ghost use Rattle.op_semi.specs.Program.{semi_need, program as semi_program};
    ghost use Rattle.op_semi.specs.Serves.{SemiServes};
    ghost use Rattle.op_semi.specs.Agrees.{semi_agrees};
    ghost use Rattle.op_semi.specs.Order.{unbroken_program, within_need};

    ghost policy = { λ o. prunes o.sizes };

    ghost program = { λ o. semi_program o.sizes };

    ghost needs = { λ o. semi_need o.sizes };

    ghost most = { λ o. o.ops };

    ghost times = { λ o. 2 };

    ghost takes = { λ o. has_side };

    ghost serves = { λ o. SemiServes o.sizes };

    ghost agrees = { λ o. semi_agrees o.sizes o.fine };

    ghost sent = { λ o d b gate s r h. sent_has_side b gate r h };

    ghost unbroken = { λ o. unbroken_program o.sizes o.fine };

    ghost measured = { λ o. within_need o.sizes o.fine o.ops o.many };

    fn passes(&self) -> u8 {
        2
    }

    fn need(&self) -> Need {
        let sizes = self.sizes;
        let width = u64::from(sizes.bloom.width);
        let filters = 2 * u64::from(sizes.bloom.cells);
        let lists = 2 * u64::from(sizes.rows);
        let stages = u64::from(sizes.bloom.hashes) + u64::from(sizes.cols);
        Need {
            width,
            cells: filters.max(lists),
            words: width + 32 + stages * 33,
            stages: 2 + stages,
        }
    }

    fn emit(&self, alloc: Global) -> Result<Program, Memory> {
        let sizes = self.sizes;
        let arrays = arrays(alloc, sizes)?;
        let stages = stages(alloc, sizes)?;
        let bloom = sizes.bloom;
        Ok(Program {
            width: bloom.width,
            arrays,
            stages,
            verdict: bloom.width + 5 + 10 * bloom.hashes + 3 + 4 * sizes.cols + 1,
        })
    }
}

impl TwoPass for Semi {
    ghost use Rattle.std.specs.Prelude.{refl};
    ghost use Rattle.op_semi.specs.Laws.{semi_covers};

    ghost twice = { λ o. refl };

    ghost covers = { λ o. semi_covers o.sizes };
}
