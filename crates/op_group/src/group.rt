ghost use Rattle.std.specs.Prelude.{◌≡◌, ◌≤◌};
ghost use Rattle.op_group.specs.Sizes.{IsFine};

use crate::emit::group_program;
use ch_cells::{Listed, Memory};
use ch_ir::Program;
use ch_prune::{Front, Need, OnePass, Operator};
use std::alloc::Global;

/// Prunes the rows whose key is listed with a best that is no worse.
#[derive(Drop)]
pub struct Group {
    front: Front,
    ops: u32,
    width: u32,
    rows: u32,
    cols: u32,
    key: Listed<u32>,
    value: u32,
    max: bool,
    ghost fine: { IsFine (record { width = width; rows = rows; cols = cols; key = key; value = value; is_max = max }) },
    ghost many: { 48 ≤ ops },
}

impl Group {
    /// Rows of `width` words, `rows` hash rows that list `cols` keys each, the places of the key's words and of the value, and
    /// whether the greatest value is best.
    pub fn new(
        front: Front,
        ops: u32,
        width: u32,
        rows: u32,
        cols: u32,
        key: Listed<u32>,
        value: u32,
        max: bool,
    ) -> Group
        requires many { 48 ≤ ops }
        requires fine { IsFine (record { width = width; rows = rows; cols = cols; key = key; value = value; is_max = max }) }
        ensures ops { result.ops ≡ ops }
        ensures width { result.width ≡ width }
        ensures rows { result.rows ≡ rows }
        ensures cols { result.cols ≡ cols }
        ensures key { result.key ≡ key }
        ensures value { result.value ≡ value }
        ensures max { result.max ≡ max }
    {
        Group {
            front,
            ops,
            width,
            rows,
            cols,
            key,
            value,
            max,
        }
    }
}

impl Operator for Group {
    ghost use Rattle.op_group.specs.Policy.{group_policy};
    ghost use Rattle.op_group.specs.Serving.{GroupServes};
    ghost use Rattle.op_group.specs.Program.{group_need, group_program};
    ghost use Rattle.op_group.specs.Agrees.{group_takes};
    ghost use Rattle.op_group.specs.Order.{group_measured, group_unbroken};
    ghost use Rattle.op_group.specs.Laws.{group_agrees, group_sent};
    ghost use Rattle.op_group.specs.Shown.{sizes};

    ghost policy = { λ o. group_policy (sizes o) };

    ghost program = { λ o. group_program (sizes o) };

    ghost needs = { λ o. group_need (sizes o) };

    ghost most = { λ o. o.ops };

    ghost times = { λ o. 1 };

    ghost takes = { λ o. group_takes };

    ghost serves = { λ o d b gate. GroupServes (sizes o) d b gate };

    ghost agrees = { λ o. group_agrees (sizes o) o.fine };

    ghost sent = { λ o. group_sent (sizes o) };

    ghost unbroken = { λ o. group_unbroken (sizes o) o.fine };

    ghost measured = { λ o. group_measured (sizes o) o.fine o.ops o.many };

    fn passes(&self) -> u8 {
        1
    }

    fn need(&self) -> Need {
        let width = u64::from(self.width);
        let keys = self.key.len() as u64;
        Need {
            width,
            cells: u64::from(self.rows) * (keys + 2),
            words: width + 32 + u64::from(self.cols) * (keys + 32),
            stages: 2 + u64::from(self.cols),
        }
    }

    fn emit(&self, alloc: Global) -> Result<Program, Memory> {
        group_program(
            alloc,
            self.front,
            self.width,
            self.rows,
            self.cols,
            self.key.as_slice(),
            self.value,
            self.max,
        )
    }
}

impl OnePass for Group {
    ghost use Rattle.std.specs.Prelude.{refl};
    ghost use Rattle.op_group.specs.Laws.{group_covers};
    ghost use Rattle.op_group.specs.Shown.{sizes};

    ghost once = { λ o. refl };

    ghost covers = { λ o d b gate s. group_covers (sizes o) d b gate s };
}
