ghost use Rattle.std.specs.Prelude.{◌≡◌, ◌<◌, ◌≤◌, ◌+◌, ◌^◌, ◌∷◌, ◌++◌, length, pos, IfOk, OnOk};
ghost use Rattle.ch_ir.specs.declared.program.Op.TheVariants.{Set};
ghost use Rattle.ch_ir.specs.declared.program.Operand.TheVariants.{Const};
ghost use Rattle.ch_pack_laws.specs.Packed.{all_arrays, all_moved, bases_from, compared, first_free, free_after, free_after_all, greatest_width, joined, last_free, only_ops, packed, selector_of};
ghost use Rattle.ch_pack.specs.Plans.{programs_of};
ghost use Rattle.ch_pack.specs.Small.{ProgramsSmall, VerdictsSmall};

use crate::ops::moved_word;
use crate::stages::push_moved;
use ch_cells::{Listed, Memory};
use ch_ir::{Array, Binary, Op, Operand, Program, Stage};
use ch_pack_laws::Seat;
use ch_plan::Planned;
use ch_verify::measure;
use std::alloc::Global;

/// The selector: the word after those that the programs are given.
pub(crate) fn selector_of(plans: &[Planned]) -> u32
    ensures { result ≡ selector_of (programs_of plans.now) }
{
    let mut selector = 0;
    for plan in plans {
        selector = plan.checked.program().width.max(selector);
    }
    selector
}

/// The first free word after a program.
#[tactic(auto, unfolding(ch_ir::specs::Measure::sizes_of))]
fn free_after(free: u32, plan: &Planned) -> u32
    requires { free_after free plan.now.checked < 2 ^ 32 }
    ensures { result ≡ free_after free plan.now.checked }
{
    let program = plan.checked.program();
    free + program.stages.len() as u32 + measure(program).words as u32
}

/// The first stage: whether the selector is the number of each plan.
fn first_stage(
    alloc: Global,
    selector: u32,
    chosen: u32,
    plans: &[Planned],
) -> Result<Stage, Memory>
    requires { chosen + length plans.now < 2 ^ 32 }
    ensures { IfOk result (λ stage. stage ≡ only_ops (compared selector chosen 0 (programs_of plans.now))) }
{
    let mut ops = Listed::new(alloc);
    let (mut chosen, mut number) = (chosen, 0u32);
    for plan in plans {
        let _ = plan;
        let wanted = Operand::Const(i64::from(number));
        ops.push(Op::Two(chosen, Binary::Eq, Operand::Word(selector), wanted))?;
        chosen += 1;
        number += 1;
    }
    Ok(Stage {
        ops,
        accesses: Listed::new(alloc),
    })
}

/// The stages of each plan in turn. Answers the first free word after them.
fn push_programs(
    alloc: Global,
    free: u32,
    chosen: u32,
    plans: &[Planned],
    stages: &mut Listed<Stage>,
) -> Result<u32, Memory>
    requires { ProgramsSmall free 0 chosen (programs_of plans.now) }
    ensures stages { OnOk result (stages.new ≡ stages.old ++ all_moved free 0 chosen (programs_of plans.now)) }
    ensures last { IfOk result (λ last. last ≡ free_after_all free (programs_of plans.now)) }
{
    let (mut free, mut base, mut chosen) = (free, 0u32, chosen);
    for plan in plans {
        let program = plan.checked.program();
        let seat = Seat {
            width: program.width,
            shift: free + program.stages.len() as u32,
            base,
            chosen,
        };
        push_moved(alloc, seat, free, program.stages.as_slice(), stages)?;
        free = free_after(free, plan);
        base += program.arrays.len() as u32;
        chosen += 1;
    }
    Ok(free)
}

/// The last stage, whose last word is the verdict of the selected plan.
fn last_stage(
    alloc: Global,
    free: u32,
    chosen: u32,
    last: u32,
    plans: &[Planned],
) -> Result<Stage, Memory>
    requires small { VerdictsSmall free chosen (programs_of plans.now) }
    requires end { last + length plans.now < 2 ^ 32 }
    ensures { IfOk result (λ stage. stage ≡ only_ops (Set last (Const (pos 0)) ∷ joined free chosen last (programs_of plans.now))) }
{
    let mut ops = Listed::new(alloc);
    ops.push(Op::Set(last, Operand::Const(0)))?;
    let (mut free, mut chosen, mut last) = (free, chosen, last);
    for plan in plans {
        let program = plan.checked.program();
        let seat = Seat {
            width: program.width,
            shift: free + program.stages.len() as u32,
            base: 0,
            chosen,
        };
        let own = Operand::Word(moved_word(seat, program.verdict));
        let others = Operand::Word(last);
        ops.push(Op::Pick(last + 1, Operand::Word(chosen), own, others))?;
        free = free_after(free, plan);
        chosen += 1;
        last += 1;
    }
    Ok(Stage {
        ops,
        accesses: Listed::new(alloc),
    })
}

fn push_arrays(arrays: &[Array], all: &mut Listed<Array>) -> Result<(), Memory>
    ensures { OnOk result (all.new ≡ all.old ++ arrays.now) }
{
    for array in arrays {
        all.push(*array)?;
    }
    Ok(())
}

fn all_arrays(alloc: Global, plans: &[Planned]) -> Result<Listed<Array>, Memory>
    ensures { IfOk result (λ all. all ≡ all_arrays (programs_of plans.now)) }
{
    let mut all = Listed::new(alloc);
    for plan in plans {
        push_arrays(plan.checked.program().arrays.as_slice(), &mut all)?;
    }
    Ok(all)
}

/// The number of the first array of each plan.
pub(crate) fn bases_of(alloc: Global, plans: &[Planned]) -> Result<Listed<u32>, Memory>
    requires { length (all_arrays (programs_of plans.now)) < 2 ^ 32 }
    ensures { IfOk result (λ bases. bases ≡ bases_from 0 (programs_of plans.now)) }
{
    let mut bases = Listed::new(alloc);
    let mut base = 0u32;
    for plan in plans {
        bases.push(base)?;
        base += plan.checked.program().arrays.len() as u32;
    }
    Ok(bases)
}

/// The packed program.
#[tactic(auto, unfolding(ch_pack_laws::specs::Packed::packed))]
pub(crate) fn packed_program(
    alloc: Global,
    selector: u32,
    plans: &[Planned],
) -> Result<Program, Memory>
    requires selector { selector ≡ selector_of (programs_of plans.now) }
    requires few { length plans.now ≤ 4 }
    requires small { ProgramsSmall (selector + 1 + length plans.now) 0 (selector + 1) (programs_of plans.now) }
    requires verdicts { VerdictsSmall (selector + 1 + length plans.now) (selector + 1) (programs_of plans.now) }
    requires begin { selector + 1 + length plans.now < 2 ^ 32 }
    requires end { free_after_all (selector + 1 + length plans.now) (programs_of plans.now) + length plans.now < 2 ^ 32 }
    ensures { IfOk result (λ program. program ≡ packed (programs_of plans.now)) }
{
    let count = plans.len() as u32;
    let chosen = selector + 1;
    let free = chosen + count;
    let mut stages = Listed::new(alloc);
    stages.push(first_stage(alloc, selector, chosen, plans)?)?;
    let last = push_programs(alloc, free, chosen, plans, &mut stages)?;
    stages.push(last_stage(alloc, free, chosen, last, plans)?)?;
    let arrays = all_arrays(alloc, plans)?;
    Ok(Program {
        width: selector + 1,
        arrays,
        stages,
        verdict: last + count,
    })
}
