ghost use Rattle.std.specs.Prelude.{◌≡◌, ◌≤◌, ◌<◌, length, true};
ghost use Rattle.std.specs.List.{list_all};
ghost use Rattle.ch_prune.specs.Sent.{is_cell_word};
ghost use Rattle.op_moves.specs.Values.{is_place};
ghost use Rattle.op_having.specs.Fine.{IsFine, is_value_place};

use crate::emitting::{arrays, stages};
use crate::sizes::Sizes;
use ch_cells::{Listed, Memory};
use ch_ir::Program;
use ch_prune::{Front, Need, Operator, TwoPass};
use std::alloc::Global;

/// Prunes, in the second pass, the rows of keys whose sum, or number of rows, can't be above a number. In the first pass it
/// adds what each row counts to one sum a hash, which keys may share: so no sum is below the key's own.
pub struct HavingOp {
    front: Front,
    ops: u32,
    sizes: Sizes,
    ghost fine: { IsFine sizes },
    ghost many: { 48 ≤ ops },
}

impl Drop for HavingOp {
    fn drop(self) {
        let HavingOp {
            front: _,
            ops: _,
            sizes: _,
        } = self;
    }
}

impl HavingOp {
    /// Over rows of so many words, for a switch that runs `ops` ops in a stage. The words at the places `key` are the key; the
    /// word `value` is summed, or else rows are counted.
    pub fn new(
        front: Front,
        ops: u32,
        width: u32,
        hashes: u32,
        cells: u32,
        key: Listed<u32>,
        value: Option<u32>,
        above: i64,
    ) -> HavingOp
        requires ops { 48 ≤ ops }
        requires wide { 3 ≤ width }
        requires narrow { width ≤ 20 }
        requires hashes { hashes ≤ 8 }
        requires cells { 0 < cells }
        requires short { length key ≤ 16 }
        requires key { list_all (is_place width) key ≡ true }
        requires value { is_value_place width value ≡ true }
        requires above { is_cell_word above ≡ true }
        ensures sizes { result.sizes ≡ record { width = width; hashes = hashes; cells = cells; keys = key; value = value; above = above } }
        ensures ops { result.ops ≡ ops }
    {
        HavingOp {
            front,
            ops,
            sizes: Sizes {
                width,
                hashes,
                cells,
                keys: key,
                value,
                above,
            },
        }
    }
}

impl Operator for HavingOp {
    ghost use Rattle.op_having.specs.Policy.{prunes};
    ghost use Rattle.op_having.specs.Program.{having_need, program as having_program};
    ghost use Rattle.op_having.specs.Serves.{HavingServes};
    ghost use Rattle.op_having.specs.Agrees.{counts, having_agrees};
    ghost use Rattle.op_having.specs.Order.{unbroken_program, within_need};
    ghost use Rattle.op_having.specs.Laws.{having_sent};

    ghost policy = { λ o. prunes o.sizes };

    ghost program = { λ o. having_program o.sizes };

    ghost needs = { λ o. having_need o.sizes };

    ghost most = { λ o. o.ops };

    ghost times = { λ o. 2 };

    ghost takes = { λ o. counts o.sizes };

    ghost serves = { λ o. HavingServes o.sizes };

    ghost agrees = { λ o. having_agrees o.sizes o.fine };

    ghost sent = { λ o. having_sent o.sizes };

    ghost unbroken = { λ o. unbroken_program o.sizes o.fine };

    ghost measured = { λ o. within_need o.sizes o.fine o.ops o.many };

    fn passes(&self) -> u8 {
        2
    }

    fn need(&self) -> Need {
        let sizes = &self.sizes;
        let width = u64::from(sizes.width);
        let stages = u64::from(sizes.hashes);
        let keys = sizes.keys.len() as u64;
        Need {
            width,
            cells: u64::from(sizes.cells),
            words: width + 32 + stages * (keys + 32),
            stages: 2 + stages,
        }
    }

    fn emit(&self, alloc: Global) -> Result<Program, Memory> {
        let sizes = &self.sizes;
        let arrays = arrays(alloc, sizes)?;
        let stages = stages(alloc, sizes)?;
        Ok(Program {
            width: sizes.width,
            arrays,
            stages,
            verdict: sizes.width + 3 + 5 * sizes.hashes,
        })
    }
}

impl TwoPass for HavingOp {
    ghost use Rattle.std.specs.Prelude.{refl};
    ghost use Rattle.op_having.specs.Laws.{having_covers};

    ghost twice = { λ o. refl };

    ghost covers = { λ o d b gate s. having_covers o.sizes d b gate s o.fine };
}
