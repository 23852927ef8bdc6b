ghost use Rattle.std.specs.Prelude.{◌≡◌, ◌≤◌, ◌<◌, ◌^◌, List, [], ◌∷◌, length, IfOk, OnOk};
ghost use Rattle.op_moves.specs.Built.{HasMade};
ghost use Rattle.op_moves.specs.Moves.{Compute, Reach};
ghost use Rattle.op_cache.specs.Emitted.{column, columns, gate_after, gate_op};

use crate::operands::{put_each, words_from, words_of};
use ch_cells::{Listed, Memory};
use ch_ir::{Access, Binary, Op, Operand, Test};
use op_moves::Builder;
use std::alloc::Global;

/// Where the columns of a list stand: how many there are, their first array and word, the word of the gate, and the word of
/// the hash row.
#[derive(Clone, Copy)]
pub struct Columns {
    pub cols: u32,
    pub array: u32,
    pub base: u32,
    pub gate: u32,
    pub row: u32,
}

/// The access of a column.
fn column(
    alloc: Global,
    place: Columns,
    words: &[u32],
    carried: &[Operand],
) -> Result<Access, Memory>
    requires keys { length words.now ≤ 16 }
    requires base { place.base < 2 ^ 17 }
    ensures { IfOk result (λ access. access ≡ column place.array place.base place.gate place.row words.now carried.now) }
{
    let keys = words.len() as u32;
    let key = words_of(alloc, words)?;
    let yes = put_each(alloc, carried)?;
    let no = put_each(alloc, carried)?;
    Ok(Access {
        array: place.array,
        index: Operand::Word(place.row),
        guard: Operand::Word(place.gate),
        test: Test::KeyEq(keys),
        key,
        yes,
        no,
        old: place.base,
        hit: place.base + keys + 1,
    })
}

/// A column, and the gate of the next one.
fn emit_column(
    builder: &mut Builder,
    alloc: Global,
    place: Columns,
    words: &[u32],
    carried: &[Operand],
) -> Result<(), Memory>
    requires keys { length words.now ≤ 16 }
    requires base { place.base < 2 ^ 17 }
    ensures { OnOk result (HasMade (Reach (column place.array place.base place.gate place.row words.now carried.now) ∷ Compute (gate_op (length words.now) place.base place.gate) ∷ []) builder.old builder.new) }
{
    let keys = words.len() as u32;
    let access = column(alloc, place, words, carried)?;
    builder.reach(alloc, access)?;
    builder.compute(Op::Two(
        place.base + keys + 2,
        Binary::Lt,
        Operand::Word(place.base + keys + 1),
        Operand::Word(place.gate),
    ))
}

/// The columns of a list of keys, which stand in `words`. The first one takes what is carried, a mark and a key.
pub fn emit_columns(
    builder: &mut Builder,
    alloc: Global,
    place: Columns,
    words: &[u32],
    carried: Listed<Operand>,
) -> Result<(), Memory>
    requires cols { place.cols ≤ 16 }
    requires keys { length words.now ≤ 16 }
    requires array { place.array < 2 ^ 16 }
    requires base { place.base < 2 ^ 16 }
    ensures { OnOk result (HasMade (columns place.cols place.array place.base place.gate place.row words.now carried) builder.old builder.new) }
{
    let keys = words.len() as u32;
    let mut carried = carried;
    let mut base = place.base;
    let mut gate = place.gate;
    for column in 0..place.cols {
        let at = Columns {
            cols: place.cols,
            array: place.array + column,
            base,
            gate,
            row: place.row,
        };
        emit_column(builder, alloc, at, words, carried.as_slice())?;
        carried = words_from(alloc, base, keys + 1)?;
        gate = base + keys + 2;
        base = base + keys + 3;
    }
    Ok(())
}

/// The word of the gate after the last column, for keys of so many words.
pub fn gate_after(keys: u32, cols: u32, base: u32, gate: u32) -> u32
    requires keys { keys ≤ 16 }
    requires cols { cols ≤ 16 }
    requires base { base < 2 ^ 16 }
    ensures { result ≡ gate_after keys cols base gate }
{
    if cols == 0 {
        gate
    } else {
        base + (keys + 3) * (cols - 1) + keys + 2
    }
}
