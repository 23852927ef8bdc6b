ghost use Rattle.std.specs.Prelude.{◌≡◌, ◌↔◌, IsTrue, ◌<◌, ◌≤◌, ◌-◌, ◌+◌, ◌^◌, map, length, List, [], ◌∷◌};
ghost use Rattle.ch_ir.specs.declared.program.Operand.TheVariants.{Word};
ghost use Rattle.ch_ir.specs.Rules.{operands_of, access_operands, update_operand, update_operands};
ghost use Rattle.ch_ir.specs.Measure.{greatest_array, operand_end, operands_end, op_end, ops_end, run_end, old_end, access_end, accesses_end, stage_end, stages_end, most_ops, sizes_of};

use ch_ir::{Access, Array, Op, Operand, Program, Sizes, Stage, Update, cells_of, to_of};

fn number_end(number: u32) -> u64
    ensures { result ≡ number + 1 }
{
    u64::from(number) + 1
}

fn operand_end(operand: Operand) -> u64
    ensures { result ≡ operand_end operand }
{
    match operand {
        Operand::Word(w) => number_end(w),
        Operand::Const(_) => 0,
    }
}

fn operands_end(operands: &[Operand]) -> u64
    ensures { result ≡ operands_end operands.now }
{
    let mut end = 0;
    for operand in operands {
        end = end.max(operand_end(*operand));
    }
    end
}

fn numbers_end(numbers: &[u32]) -> u64
    ensures { result ≡ operands_end (map Word numbers.now) }
{
    let mut end = 0;
    for number in numbers {
        end = end.max(number_end(*number));
    }
    end
}

fn update_end(update: Update) -> u64
    ensures { result ≡ operands_end (update_operand update) }
{
    match update {
        Update::Keep => 0,
        Update::Put(a) => operand_end(a),
        Update::AddSat(a) => operand_end(a),
        Update::Min(a) => operand_end(a),
        Update::Max(a) => operand_end(a),
        Update::Or(a) => operand_end(a),
    }
}

#[tactic(auto, using(crate::proofs::Ends::end_append))]
fn updates_end(updates: &[Update]) -> u64
    ensures { result ≡ operands_end (update_operands updates.now) }
{
    let mut end = 0;
    for update in updates {
        end = end.max(update_end(*update));
    }
    end
}

fn op_operands_end(op: &Op) -> u64
    ensures { result ≡ operands_end (operands_of op.now) }
{
    match op {
        Op::Set(_, a) => operand_end(*a),
        Op::Two(_, _, a, b) => operand_end(*a).max(operand_end(*b)),
        Op::Bit(_, a) => operand_end(*a),
        Op::Pick(_, a, b, c) => operand_end(*a).max(operand_end(*b)).max(operand_end(*c)),
        Op::Hash(_, _, _, numbers) => numbers_end(numbers.as_slice()),
    }
}

fn op_end(op: &Op) -> u64
    ensures { result ≡ op_end op.now }
{
    number_end(to_of(op)).max(op_operands_end(op))
}

fn ops_end(ops: &[Op]) -> u64
    ensures { result ≡ ops_end ops.now }
{
    let mut end = 0;
    for op in ops {
        end = end.max(op_end(op));
    }
    end
}

/// The end of so many words from a number on.
fn run_end(first: u32, many: u32) -> u64
    ensures { result ≡ run_end first many }
{
    if 0 < many {
        u64::from(first) + u64::from(many)
    } else {
        0
    }
}

fn old_end(arrays: &[Array], x: &Access) -> u64
    ensures { result ≡ old_end arrays.now x.now }
{
    if (x.array as usize) < arrays.len() {
        run_end(x.old, cells_of(arrays, x.array))
    } else {
        run_end(x.old, 1)
    }
}

#[tactic(auto, using(crate::proofs::Ends::end_append))]
fn access_operands_end(x: &Access) -> u64
    ensures { result ≡ operands_end (access_operands x.now) }
{
    operand_end(x.index)
        .max(operand_end(x.guard))
        .max(operands_end(x.key.as_slice()))
        .max(updates_end(x.yes.as_slice()))
        .max(updates_end(x.no.as_slice()))
}

fn access_end(arrays: &[Array], x: &Access) -> u64
    ensures { result ≡ access_end arrays.now x.now }
{
    access_operands_end(x)
        .max(old_end(arrays, x))
        .max(number_end(x.hit))
}

fn accesses_end(arrays: &[Array], accesses: &[Access]) -> u64
    ensures { result ≡ accesses_end arrays.now accesses.now }
{
    let mut end = 0;
    for x in accesses {
        end = end.max(access_end(arrays, x));
    }
    end
}

fn stages_end(arrays: &[Array], stages: &[Stage]) -> u64
    ensures { result ≡ stages_end arrays.now stages.now }
{
    let mut end = 0;
    for t in stages {
        end = end
            .max(ops_end(t.ops.as_slice()))
            .max(accesses_end(arrays, t.accesses.as_slice()));
    }
    end
}

fn most_ops(stages: &[Stage]) -> usize
    ensures { result ≡ most_ops stages.now }
{
    let mut most = 0;
    for t in stages {
        most = most.max(t.ops.len());
    }
    most
}

fn greatest_array(arrays: &[Array]) -> u64
    ensures { result ≡ greatest_array arrays.now }
{
    let mut cells = 0;
    for array in arrays {
        cells = cells.max(u64::from(array.entries) * u64::from(array.cells));
    }
    cells
}

/// Whether the numbers of stages and of ops per stage are below `2^32 - 1`, as [`measure`] and `verify` need.
pub fn is_countable(program: &Program) -> bool
    ensures { IsTrue result ↔ ((length program.now.stages < 2 ^ 32 - 1) × (most_ops program.now.stages < 2 ^ 32 - 1)) }
{
    program.stages.len() < u32::MAX as usize
        && most_ops(program.stages.as_slice()) < u32::MAX as usize
}

/// What the program needs of each limit. Takes no memory.
#[tactic(auto, unfolding(ch_ir::specs::Measure::sizes_of))]
pub fn measure(program: &Program) -> Sizes
    requires stages { length program.now.stages < 2 ^ 32 - 1 }
    requires ops { most_ops program.now.stages < 2 ^ 32 - 1 }
    ensures { result ≡ sizes_of program.now }
{
    let words = u64::from(program.width)
        .max(stages_end(program.arrays.as_slice(), program.stages.as_slice()))
        .max(number_end(program.verdict));
    Sizes {
        width: program.width,
        cells: greatest_array(program.arrays.as_slice()),
        words,
        stages: program.stages.len() as u32,
        ops: most_ops(program.stages.as_slice()) as u32,
    }
}
