ghost use Rattle.std.specs.Prelude.{◌≡◌, ◌≤◌, ◌<◌, ◌^◌};
ghost use Rattle.op_bloom.specs.Fine.{IsFine};

use crate::emitting::stages;
use ch_cells::{Listed, Memory};
use ch_ir::Program;
use ch_prune::{Front, Need, Operator, TwoPass};
use op_bloom::{Sizes, filter_arrays};
use std::alloc::Global;

/// Prunes, in the second pass, the rows whose key no row of the other table had in the first. In the first pass it puts each
/// row's key into its side's Bloom filter.
#[derive(Drop)]
pub struct JoinOp {
    front: Front,
    ops: u32,
    sizes: Sizes,
    ghost fine: { IsFine sizes },
    ghost many: { 48 ≤ ops },
}

impl JoinOp {
    /// Over rows of so many words, for a switch that runs `ops` ops in a stage. The key is the word `left` in a row of side 0,
    /// and the word `right` in a row of side 1.
    pub fn new(
        front: Front,
        ops: u32,
        width: u32,
        hashes: u32,
        cells: u32,
        left: u32,
        right: u32,
    ) -> JoinOp
        requires ops { 48 ≤ ops }
        requires wide { 3 ≤ width }
        requires narrow { width ≤ 20 }
        requires hashes { hashes ≤ 8 }
        requires some { 0 < cells }
        requires few { cells < 2 ^ 31 }
        requires left { (2 ≤ left) × (left < width) }
        requires right { (2 ≤ right) × (right < width) }
        ensures sizes { result.sizes ≡ record { width = width; hashes = hashes; cells = cells; left = left; right = right } }
        ensures ops { result.ops ≡ ops }
    {
        JoinOp {
            front,
            ops,
            sizes: Sizes {
                width,
                hashes,
                cells,
                left,
                right,
            },
        }
    }
}

impl Operator for JoinOp {
    ghost use Rattle.op_bloom.specs.Filter.{has_side};
    ghost use Rattle.op_join.specs.Policy.{prunes};
    ghost use Rattle.op_join.specs.Program.{join_need, program as join_program};
    ghost use Rattle.op_join.specs.Serves.{JoinServes};
    ghost use Rattle.op_join.specs.Agrees.{join_agrees};
    ghost use Rattle.op_join.specs.Order.{unbroken_program, within_need};
    ghost use Rattle.op_join.specs.Laws.{join_sent};

    ghost policy = { λ o. prunes o.sizes };

    ghost program = { λ o. join_program o.sizes };

    ghost needs = { λ o. join_need o.sizes };

    ghost most = { λ o. o.ops };

    ghost times = { λ o. 2 };

    ghost takes = { λ o. has_side };

    ghost serves = { λ o. JoinServes o.sizes };

    ghost agrees = { λ o. join_agrees o.sizes o.fine };

    ghost sent = { λ o d b gate s r h. join_sent b gate r h };

    ghost unbroken = { λ o. unbroken_program o.sizes o.fine };

    ghost measured = { λ o. within_need o.sizes o.fine o.ops o.many };

    fn passes(&self) -> u8 {
        2
    }

    fn need(&self) -> Need {
        let width = u64::from(self.sizes.width);
        let stages = u64::from(self.sizes.hashes);
        Need {
            width,
            cells: 2 * u64::from(self.sizes.cells),
            words: width + 32 + stages * 33,
            stages: 2 + stages,
        }
    }

    fn emit(&self, alloc: Global) -> Result<Program, Memory> {
        let sizes = self.sizes;
        let arrays = filter_arrays(alloc, sizes)?;
        let stages = stages(alloc, sizes)?;
        Ok(Program {
            width: sizes.width,
            arrays: Listed::from_vec(arrays),
            stages,
            verdict: sizes.width + 5 + 10 * sizes.hashes,
        })
    }
}

impl TwoPass for JoinOp {
    ghost use Rattle.std.specs.Prelude.{refl};
    ghost use Rattle.op_join.specs.Laws.{join_covers};

    ghost twice = { λ o. refl };

    ghost covers = { λ o. join_covers o.sizes };
}
