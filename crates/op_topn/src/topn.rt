ghost use Rattle.std.specs.Prelude.{◌≡◌, ◌≤◌, ◌<◌, ◌^◌};
ghost use Rattle.op_topn.specs.Fine.{IsFine};

use crate::emitting::{arrays, stages};
use crate::sizes::Sizes;
use ch_cells::Memory;
use ch_ir::Program;
use ch_prune::{Front, Need, OnePass, Operator};
use std::alloc::Global;

/// Prunes a row that can't be among the first of ORDER BY with LIMIT: as many rows as are printed came before it with a
/// better value. It tells by the least of the first values, and by thresholds above it, each with the number of later values
/// that reached it.
#[derive(Drop)]
pub struct TopN {
    front: Front,
    ops: u32,
    sizes: Sizes,
    ghost fine: { IsFine sizes },
    ghost many: { 48 ≤ ops },
}

impl TopN {
    /// Over rows of so many words, for a switch that runs `ops` ops in a stage. The ordered value is the word `value`, and
    /// `limit` rows are printed at most.
    pub fn new(
        front: Front,
        ops: u32,
        width: u32,
        steps: u32,
        gap: u32,
        value: u32,
        descending: bool,
        limit: u32,
    ) -> TopN
        requires ops { 48 ≤ ops }
        requires width { width < 2 ^ 31 }
        requires steps { steps ≤ 40 }
        requires gap { gap ≤ 2 ^ 20 }
        requires past { 2 ≤ value }
        requires place { value < width }
        requires limit { 1 ≤ limit }
        ensures sizes { result.sizes ≡ record { width = width; steps = steps; gap = gap; value = value; descending = descending; limit = limit } }
        ensures ops { result.ops ≡ ops }
    {
        TopN {
            front,
            ops,
            sizes: Sizes {
                width,
                steps,
                gap,
                value,
                descending,
                limit,
            },
        }
    }
}

impl Operator for TopN {
    ghost use Rattle.op_topn.specs.Policy.{top_policy};
    ghost use Rattle.op_topn.specs.Emitted.{top_program};
    ghost use Rattle.op_topn.specs.History.{top_takes, top_agrees};
    ghost use Rattle.op_topn.specs.Serves.{TopServes};
    ghost use Rattle.op_topn.specs.Order.{top_need, top_unbroken, top_measured};
    ghost use Rattle.op_topn.specs.Laws.{top_sent};

    ghost policy = { λ o. top_policy o.sizes };

    ghost program = { λ o. top_program o.sizes };

    ghost needs = { λ o. top_need o.sizes };

    ghost most = { λ o. o.ops };

    ghost times = { λ o. 1 };

    ghost takes = { λ o. top_takes };

    ghost serves = { λ o. TopServes o.sizes };

    ghost agrees = { λ o. top_agrees o.sizes o.fine };

    ghost sent = { λ o. top_sent o.sizes };

    ghost unbroken = { λ o. top_unbroken o.sizes o.fine };

    ghost measured = { λ o. top_measured o.sizes o.fine o.ops o.many };

    fn passes(&self) -> u8 {
        1
    }

    fn need(&self) -> Need {
        let stages = u64::from(self.sizes.steps) + 2;
        Need {
            width: u64::from(self.sizes.width),
            cells: 1,
            words: u64::from(self.sizes.width) + 32 + stages * 33,
            stages: 2 + stages,
        }
    }

    fn emit(&self, alloc: Global) -> Result<Program, Memory> {
        let sizes = self.sizes;
        let arrays = arrays(alloc, sizes)?;
        let stages = stages(alloc, self.front, sizes)?;
        Ok(Program {
            width: sizes.width,
            arrays,
            stages,
            verdict: sizes.width + 9 + 7 * sizes.steps + 1,
        })
    }
}

impl OnePass for TopN {
    ghost use Rattle.std.specs.Prelude.{refl};
    ghost use Rattle.op_topn.specs.Laws.{policy_covers};

    ghost once = { λ o. refl };

    ghost covers = { λ o. policy_covers o.sizes };
}
