ghost use Rattle.std.specs.Prelude.{◌≡◌, ◌≤◌, ◌<◌, ◌^◌, true, length};
ghost use Rattle.std.specs.List.{list_all};
ghost use Rattle.op_skyline.specs.Fine.{IsFine, is_place};

use crate::program::{arrays, stages};
use crate::sizes::Sizes;
use ch_cells::{Listed, Memory};
use ch_ir::Program;
use ch_prune::{Front, Need, OnePass, Operator};
use std::alloc::Global;

/// Prunes a row whose point a stored one dominates. It stores the points of the greatest sums so far.
#[derive(Drop)]
pub struct Skyline {
    front: Front,
    ops: u32,
    sizes: Sizes,
    ghost fine: { IsFine sizes },
    ghost many: { 48 ≤ ops },
}

impl Skyline {
    /// Over rows of so many words, for a switch that runs `ops` ops in a stage. The words at the places are a row's point,
    /// and `max` tells of each of them whether greater is better.
    pub fn new(
        front: Front,
        ops: u32,
        width: u32,
        points: u32,
        places: Listed<u32>,
        max: Listed<bool>,
    ) -> Skyline
        requires ops { 48 ≤ ops }
        requires least { 2 < width }
        requires width { width < 2 ^ 31 }
        requires points { points ≤ 2 ^ 16 }
        requires some { 1 ≤ length places }
        requires few { length places ≤ 4 }
        requires placed { list_all (is_place width) places ≡ true }
        requires same { length max ≡ length places }
        ensures sizes { result.sizes ≡ record { width = width; points = points; places = places; max = max } }
        ensures ops { result.ops ≡ ops }
    {
        Skyline {
            front,
            ops,
            sizes: Sizes {
                width,
                points,
                places,
                max,
            },
        }
    }
}

impl Operator for Skyline {
    ghost use Rattle.op_skyline.specs.Policy.{skyline_policy};
    ghost use Rattle.op_skyline.specs.Emitted.{skyline_program};
    ghost use Rattle.op_skyline.specs.History.{skyline_takes, skyline_agrees};
    ghost use Rattle.op_skyline.specs.Serves.{SkylineServes};
    ghost use Rattle.op_skyline.specs.Order.{skyline_need, skyline_unbroken, skyline_measured};
    ghost use Rattle.op_skyline.specs.Laws.{skyline_sent};

    ghost policy = { λ o. skyline_policy o.sizes };

    ghost program = { λ o. skyline_program o.sizes };

    ghost needs = { λ o. skyline_need o.sizes };

    ghost most = { λ o. o.ops };

    ghost times = { λ o. 1 };

    ghost takes = { λ o. skyline_takes };

    ghost serves = { λ o. SkylineServes o.sizes };

    ghost agrees = { λ o. skyline_agrees o.sizes o.fine };

    ghost sent = { λ o. skyline_sent o.sizes };

    ghost unbroken = { λ o. skyline_unbroken o.sizes o.fine };

    ghost measured = { λ o. skyline_measured o.sizes o.fine o.ops o.many };

    fn passes(&self) -> u8 {
        1
    }

    fn need(&self) -> Need {
        let dimensions = self.sizes.places.len() as u64;
        let points = u64::from(self.sizes.points);
        Need {
            width: u64::from(self.sizes.width),
            cells: dimensions + 2,
            words: u64::from(self.sizes.width) + 32 + points * (dimensions + 32),
            stages: 2 + points,
        }
    }

    fn emit(&self, alloc: Global) -> Result<Program, Memory> {
        let arrays = arrays(alloc, &self.sizes)?;
        let stages = stages(alloc, self.front, &self.sizes)?;
        let dimensions = self.sizes.places.len() as u32;
        let before = self.sizes.width + 4 + 3 * dimensions;
        Ok(Program {
            width: self.sizes.width,
            arrays,
            stages,
            verdict: before + (4 * dimensions + 9) * self.sizes.points,
        })
    }
}

impl OnePass for Skyline {
    ghost use Rattle.std.specs.Prelude.{refl};
    ghost use Rattle.op_skyline.specs.Laws.{policy_covers};

    ghost once = { λ o. refl };

    ghost covers = { λ o. policy_covers o.sizes };
}
