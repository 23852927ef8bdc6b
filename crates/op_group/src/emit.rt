ghost use Rattle.std.specs.Prelude.{◌≡◌, ◌≤◌, [], IfOk, OnOk};
ghost use Rattle.op_moves.specs.Built.{HasMade};
ghost use Rattle.op_group.specs.Sizes.{IsFine};
ghost use Rattle.op_group.specs.Program.{group_program, moves_of, value_op};

use crate::columns::{Place, bad_after, emit_columns};
use ch_cells::{Listed, Memory};
use ch_ir::{Binary, Op, Operand, Program};
use ch_prune::Front;
use op_moves::{Builder, arrays_alike};
use std::alloc::Global;

/// The places of a key as a list of their own.
fn places_of(alloc: Global, key: &[u32]) -> Result<Listed<u32>, Memory>
    ensures { IfOk result (λ places. places ≡ key.now) }
{
    let mut places = Listed::new(alloc);
    for place in key {
        places.push(*place)?;
    }
    Ok(places)
}

/// 2^61 and the value, or less the value where the least is best.
fn value_op(width: u32, value: u32, max: bool) -> Op
    requires { width ≤ 20 }
    ensures { result ≡ value_op (record { width = width; rows = 0; cols = 0; key = []; value = value; is_max = max }) }
{
    let kind = if max { Binary::Add } else { Binary::Sub };
    Op::Two(
        width + 2,
        kind,
        Operand::Const(1 << 61),
        Operand::Word(value),
    )
}

/// The gate, the hash row, the value, the columns, and the verdict.
fn emit_moves(
    builder: &mut Builder,
    alloc: Global,
    front: Front,
    width: u32,
    rows: u32,
    cols: u32,
    key: &[u32],
    value: u32,
    max: bool,
) -> Result<(), Memory>
    requires { IsFine (record { width = width; rows = rows; cols = cols; key = key.now; value = value; is_max = max }) }
    ensures { OnOk result (HasMade (moves_of (record { width = width; rows = rows; cols = cols; key = key.now; value = value; is_max = max })) builder.old builder.new) }
{
    let keys = key.len() as u32;
    builder.compute(Op::Two(width, Binary::Ne, front.operand(), Operand::Const(0)))?;
    let places = places_of(alloc, key)?;
    builder.compute(Op::Hash(width + 1, 0, rows, places))?;
    builder.compute(value_op(width, value, max))?;
    builder.compute(Op::Set(width + 3, Operand::Const(0)))?;
    let first = Place {
        array: 0,
        base: width + 4,
        gate: width,
        row: width + 1,
        value: width + 2,
        bad: width + 3,
    };
    emit_columns(builder, alloc, cols, first, key)?;
    let bad = bad_after(keys, cols, width + 4, width + 3);
    builder.compute(Op::Two(
        width + 4 + (keys + 7) * cols,
        Binary::Le,
        Operand::Word(width),
        Operand::Word(bad),
    ))
}

pub(crate) fn group_program(
    alloc: Global,
    front: Front,
    width: u32,
    rows: u32,
    cols: u32,
    key: &[u32],
    value: u32,
    max: bool,
) -> Result<Program, Memory>
    requires { IsFine (record { width = width; rows = rows; cols = cols; key = key.now; value = value; is_max = max }) }
    ensures { IfOk result (λ p. p ≡ group_program (record { width = width; rows = rows; cols = cols; key = key.now; value = value; is_max = max })) }
{
    let keys = key.len() as u32;
    let arrays = arrays_alike(alloc, cols, rows, keys + 2)?;
    let mut builder = Builder::new(alloc);
    emit_moves(
        &mut builder,
        alloc,
        front,
        width,
        rows,
        cols,
        key,
        value,
        max,
    )?;
    let stages = builder.finish(alloc)?;
    Ok(Program {
        width,
        arrays,
        stages,
        verdict: width + 4 + (keys + 7) * cols,
    })
}
