ghost use Rattle.std.specs.Prelude.{◌≡◌, ◌≤◌};
ghost use Rattle.op_distinct.specs.Sizes.{IsFine};

use crate::emit::distinct_program;
use ch_cells::{Listed, Memory};
use ch_ir::Program;
use ch_prune::{Front, Need, OnePass, Operator};
use std::alloc::Global;

/// Prunes the rows whose key is among the latest of its hash row.
#[derive(Drop)]
pub struct Distinct {
    front: Front,
    ops: u32,
    width: u32,
    rows: u32,
    cols: u32,
    key: Listed<u32>,
    ghost fine: { IsFine (record { width = width; rows = rows; cols = cols; key = key }) },
    ghost many: { 48 ≤ ops },
}

impl Distinct {
    /// Rows of `width` words, `rows` hash rows that list `cols` keys each, and the places of the key's words.
    pub fn new(
        front: Front,
        ops: u32,
        width: u32,
        rows: u32,
        cols: u32,
        key: Listed<u32>,
    ) -> Distinct
        requires many { 48 ≤ ops }
        requires fine { IsFine (record { width = width; rows = rows; cols = cols; key = key }) }
        ensures ops { result.ops ≡ ops }
        ensures width { result.width ≡ width }
        ensures rows { result.rows ≡ rows }
        ensures cols { result.cols ≡ cols }
        ensures key { result.key ≡ key }
    {
        Distinct {
            front,
            ops,
            width,
            rows,
            cols,
            key,
        }
    }
}

impl Operator for Distinct {
    ghost use Rattle.std.specs.Prelude.{true};
    ghost use Rattle.op_distinct.specs.Serving.{DistinctServes, distinct_policy};
    ghost use Rattle.op_distinct.specs.Program.{distinct_need, distinct_program};
    ghost use Rattle.op_distinct.specs.Order.{distinct_measured, distinct_unbroken};
    ghost use Rattle.op_distinct.specs.Laws.{distinct_agrees, distinct_sent};
    ghost use Rattle.op_distinct.specs.Shown.{sizes};

    ghost policy = { λ o. distinct_policy (sizes o) };

    ghost program = { λ o. distinct_program (sizes o) };

    ghost needs = { λ o. distinct_need (sizes o) };

    ghost most = { λ o. o.ops };

    ghost times = { λ o. 1 };

    ghost takes = { λ o r. true };

    ghost serves = { λ o d b gate. DistinctServes (sizes o) d b gate };

    ghost agrees = { λ o. distinct_agrees (sizes o) o.fine };

    ghost sent = { λ o. distinct_sent (sizes o) };

    ghost unbroken = { λ o. distinct_unbroken (sizes o) o.fine };

    ghost measured = { λ o. distinct_measured (sizes o) o.fine o.ops o.many };

    fn passes(&self) -> u8 {
        1
    }

    fn need(&self) -> Need {
        let width = u64::from(self.width);
        let keys = self.key.len() as u64;
        Need {
            width,
            cells: u64::from(self.rows) * (keys + 1),
            words: width + 32 + u64::from(self.cols) * (keys + 32),
            stages: 2 + u64::from(self.cols),
        }
    }

    fn emit(&self, alloc: Global) -> Result<Program, Memory> {
        distinct_program(
            alloc,
            self.front,
            self.width,
            self.rows,
            self.cols,
            self.key.as_slice(),
        )
    }
}

impl OnePass for Distinct {
    ghost use Rattle.std.specs.Prelude.{refl};
    ghost use Rattle.op_distinct.specs.Laws.{distinct_covers};
    ghost use Rattle.op_distinct.specs.Shown.{sizes};

    ghost once = { λ o. refl };

    ghost covers = { λ o d b gate s. distinct_covers (sizes o) d b gate s };
}
