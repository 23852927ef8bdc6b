ghost use Rattle.std.specs.Prelude.{◌≡◌, ◌∷◌, map, pos, IfOk, OnOk};
ghost use Rattle.ch_ir.specs.declared.program.Operand.TheVariants.{Word, Const};
ghost use Rattle.op_distinct.specs.Sizes.{IsFine};
ghost use Rattle.op_distinct.specs.Program.{distinct_program, moves_of};
ghost use Rattle.op_moves.specs.Built.{HasMade};

use ch_cells::{Listed, Memory};
use ch_ir::{Binary, Op, Operand, Program};
use ch_prune::Front;
use op_cache::{Columns, emit_columns, gate_after};
use op_moves::{Builder, arrays_alike};
use std::alloc::Global;

/// A mark, and the words of a key.
fn carried_of(alloc: Global, key: &[u32]) -> Result<Listed<Operand>, Memory>
    ensures { IfOk result (λ carried. carried ≡ Const (pos 1) ∷ map Word key.now) }
{
    let mut carried = Listed::new(alloc);
    carried.push(Operand::Const(1))?;
    for word in key {
        carried.push(Operand::Word(*word))?;
    }
    Ok(carried)
}

/// The places of a key as a list of their own.
fn places_of(alloc: Global, key: &[u32]) -> Result<Listed<u32>, Memory>
    ensures { IfOk result (λ places. places ≡ key.now) }
{
    let mut places = Listed::new(alloc);
    for place in key {
        places.push(*place)?;
    }
    Ok(places)
}

/// The gate and the hash row, the columns, and the verdict.
fn emit_moves(
    builder: &mut Builder,
    alloc: Global,
    front: Front,
    width: u32,
    rows: u32,
    cols: u32,
    key: &[u32],
) -> Result<(), Memory>
    requires { IsFine (record { width = width; rows = rows; cols = cols; key = key.now }) }
    ensures { OnOk result (HasMade (moves_of (record { width = width; rows = rows; cols = cols; key = key.now })) builder.old builder.new) }
{
    let keys = key.len() as u32;
    let gate = Op::Two(width, Binary::Ne, front.operand(), Operand::Const(0));
    builder.compute(gate)?;
    let places = places_of(alloc, key)?;
    builder.compute(Op::Hash(width + 1, 0, rows, places))?;
    let carried = carried_of(alloc, key)?;
    let place = Columns {
        cols,
        array: 0,
        base: width + 2,
        gate: width,
        row: width + 1,
    };
    emit_columns(builder, alloc, place, key, carried)?;
    let last = width + 2 + (keys + 3) * cols;
    let fresh = gate_after(keys, cols, width + 2, width);
    builder.compute(Op::Two(last, Binary::Eq, Operand::Word(fresh), Operand::Const(0)))
}

pub(crate) fn distinct_program(
    alloc: Global,
    front: Front,
    width: u32,
    rows: u32,
    cols: u32,
    key: &[u32],
) -> Result<Program, Memory>
    requires { IsFine (record { width = width; rows = rows; cols = cols; key = key.now }) }
    ensures { IfOk result (λ p. p ≡ distinct_program (record { width = width; rows = rows; cols = cols; key = key.now })) }
{
    let keys = key.len() as u32;
    let arrays = arrays_alike(alloc, cols, rows, keys + 1)?;
    let mut builder = Builder::new(alloc);
    emit_moves(&mut builder, alloc, front, width, rows, cols, key)?;
    let stages = builder.finish(alloc)?;
    Ok(Program {
        width,
        arrays,
        stages,
        verdict: width + 2 + (keys + 3) * cols,
    })
}
