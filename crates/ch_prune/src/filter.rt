ghost use Rattle.std.specs.Prelude.{◌≡◌, ◌≤◌, IfOk};
ghost use Rattle.ch_prune.specs.Filtering.{filter_program};

use crate::front::Front;
use crate::operator::{Need, OnePass, Operator};
use ch_cells::{Listed, Memory};
use ch_ir::{Binary, Op, Operand, Program, Stage};
use std::alloc::Global;

/// Prunes exactly the rows that don't pass its front.
#[derive(Drop)]
pub struct Filter {
    front: Front,
    ops: u32,
    width: u32,
    ghost least: { 3 ≤ width },
    ghost some: { 1 ≤ ops },
}

impl Filter {
    /// A filter of rows of so many words, the pass, the side and the bit among them, for a switch that runs `ops` ops in a
    /// stage.
    pub fn new(front: Front, ops: u32, width: u32) -> Filter
        requires least { 3 ≤ width }
        requires some { 1 ≤ ops }
        ensures width { result.width ≡ width }
        ensures ops { result.ops ≡ ops }
    {
        Filter { front, ops, width }
    }
}

/// One op, which assigns the verdict: whether the front's word is 0.
fn filter_program(alloc: Global, front: Front, width: u32) -> Result<Program, Memory>
    ensures { IfOk result (λ p. p ≡ filter_program width) }
{
    let ops = vec![in alloc; Op::Two(width, Binary::Eq, front.operand(), Operand::Const(0))]?;
    let stages = vec![in alloc;
        Stage {
            ops: Listed::from_vec(ops),
            accesses: Listed::new(alloc),
        },
    ]?;
    Ok(Program {
        width,
        arrays: Listed::new(alloc),
        stages: Listed::from_vec(stages),
        verdict: width,
    })
}

impl Operator for Filter {
    ghost use Rattle.std.specs.Prelude.{true};
    ghost use Rattle.ch_words.specs.Policies.{by_bit};
    ghost use Rattle.ch_prune.specs.Filtering.{filter_program, filter_need, FilterServes};
    ghost use Rattle.ch_prune.specs.FilterLaws.{filter_agrees, filter_sent, filter_unbroken, filter_measured};

    ghost policy = { λ o. by_bit };

    ghost program = { λ o. filter_program o.width };

    ghost needs = { λ o. filter_need o.width };

    ghost most = { λ o. o.ops };

    ghost times = { λ o. 1 };

    ghost takes = { λ o r. true };

    ghost serves = { λ o d b gate. FilterServes d b gate };

    ghost agrees = { λ o. filter_agrees o.width o.least };

    ghost sent = { λ o. filter_sent };

    ghost unbroken = { λ o. filter_unbroken o.width o.least };

    ghost measured = { λ o. filter_measured o.width o.ops o.least o.some };

    fn passes(&self) -> u8 {
        1
    }

    fn need(&self) -> Need {
        Need {
            width: u64::from(self.width),
            cells: 0,
            words: u64::from(self.width) + 32,
            stages: 2,
        }
    }

    fn emit(&self, alloc: Global) -> Result<Program, Memory> {
        filter_program(alloc, self.front, self.width)
    }
}

impl OnePass for Filter {
    ghost use Rattle.std.specs.Prelude.{refl};
    ghost use Rattle.ch_prune.specs.FilterLaws.{filter_covers};

    ghost once = { λ o. refl };

    ghost covers = { λ o d b gate s. filter_covers d b gate s };
}
