ghost use Rattle.std.specs.Prelude.{◌≡◌, ◌≤◌, ◌<◌, ◌+◌, ◌*◌, ◌^◌, [], ◌∷◌, IfOk, OnOk};
ghost use Rattle.op_bloom.specs.Program.{bad_word};
ghost use Rattle.op_moves.specs.Built.{HasMade};
ghost use Rattle.op_moves.specs.Moves.{staged};
ghost use Rattle.op_semi.specs.Program.{after_lists, arrays_of, carried_of, firsts_of_lists, list_moves, moves_of};

use crate::sizes::Sizes;
use ch_cells::{Listed, Memory};
use ch_ir::{Array, Binary, Op, Operand, Stage};
use op_bloom::{filter_arrays, make_filters};
use op_cache::{Columns, emit_columns, gate_after};
use op_moves::Builder;
use std::alloc::Global;

/// A list of one word.
fn one_word(alloc: Global, word: u32) -> Result<Listed<u32>, Memory>
    ensures { IfOk result (λ words. words ≡ word ∷ []) }
{
    let mut words = Listed::new(alloc);
    words.push(word)?;
    Ok(words)
}

/// The moves between the filters and the lists: whether the row passed, and whether it is an inner one.
fn make_firsts(alloc: Global, sizes: Sizes, bad: u32, builder: &mut Builder) -> Result<(), Memory>
    requires width { sizes.bloom.width ≤ 20 }
    requires few { sizes.bloom.hashes ≤ 8 }
    requires bad { bad ≡ bad_word sizes.bloom }
    ensures { OnOk result (HasMade (firsts_of_lists sizes) builder.old builder.new) }
{
    let w = sizes.bloom.width;
    let end = sizes.bloom.width + 5 + 10 * sizes.bloom.hashes;
    let bit = Operand::Word(w);
    builder.compute(Op::Two(end, Binary::Lt, Operand::Word(bad), bit))?;
    let key = one_word(alloc, w + 2)?;
    builder.compute(Op::Hash(end + 1, 0, sizes.rows, key))?;
    let passed = Operand::Word(end);
    let side = Operand::Word(1);
    builder.compute(Op::Two(end + 2, Binary::And, passed, side))
}

/// A mark and the key.
fn carried(alloc: Global, sizes: Sizes) -> Result<Listed<Operand>, Memory>
    requires { sizes.bloom.width ≤ 20 }
    ensures { IfOk result (λ carried. carried ≡ carried_of sizes) }
{
    let mut carried = Listed::new(alloc);
    carried.push(Operand::Const(1))?;
    carried.push(Operand::Word(sizes.bloom.width + 2))?;
    Ok(carried)
}

/// The moves of the lists.
fn make_lists(alloc: Global, sizes: Sizes, builder: &mut Builder) -> Result<(), Memory>
    requires width { sizes.bloom.width ≤ 20 }
    requires few { sizes.bloom.hashes ≤ 8 }
    requires cols { sizes.cols ≤ 16 }
    ensures { OnOk result (HasMade (list_moves sizes) builder.old builder.new) }
{
    let end = sizes.bloom.width + 5 + 10 * sizes.bloom.hashes;
    let carried = carried(alloc, sizes)?;
    let place = Columns {
        cols: sizes.cols,
        array: sizes.bloom.hashes,
        base: end + 3,
        gate: end + 2,
        row: end + 1,
    };
    emit_columns(builder, alloc, place, &[sizes.bloom.width + 2], carried)
}

/// The moves after the lists: whether the row is an inner one whose key is listed, and the verdict.
fn make_verdict(sizes: Sizes, builder: &mut Builder) -> Result<(), Memory>
    requires width { sizes.bloom.width ≤ 20 }
    requires few { sizes.bloom.hashes ≤ 8 }
    requires cols { sizes.cols ≤ 16 }
    ensures { OnOk result (HasMade (after_lists sizes) builder.old builder.new) }
{
    let end = sizes.bloom.width + 5 + 10 * sizes.bloom.hashes;
    let last = end + 3 + 4 * sizes.cols;
    let fresh = gate_after(1, sizes.cols, end + 3, end + 2);
    let inner = Operand::Word(end + 2);
    builder.compute(Op::Two(last, Binary::Lt, Operand::Word(fresh), inner))?;
    let passed = Operand::Word(end);
    let listed = Operand::Word(last);
    builder.compute(Op::Two(last + 1, Binary::Le, passed, listed))
}

/// The stages of the program.
pub(crate) fn stages(alloc: Global, sizes: Sizes) -> Result<Listed<Stage>, Memory>
    requires width { sizes.bloom.width ≤ 20 }
    requires few { sizes.bloom.hashes ≤ 8 }
    requires cols { sizes.cols ≤ 16 }
    ensures { IfOk result (λ stages. stages ≡ staged [] (moves_of sizes)) }
{
    let mut builder = Builder::new(alloc);
    let bad = make_filters(alloc, sizes.bloom, &mut builder)?;
    make_firsts(alloc, sizes, bad, &mut builder)?;
    make_lists(alloc, sizes, &mut builder)?;
    make_verdict(sizes, &mut builder)?;
    builder.finish(alloc)
}

/// The filters' arrays, and one for each place of a list.
pub(crate) fn arrays(alloc: Global, sizes: Sizes) -> Result<Listed<Array>, Memory>
    requires { sizes.bloom.cells < 2 ^ 31 }
    ensures { IfOk result (λ arrays. arrays ≡ arrays_of sizes) }
{
    let mut arrays = filter_arrays(alloc, sizes.bloom)?;
    let column = Array {
        entries: sizes.rows,
        cells: 2,
    };
    let columns = vec![in alloc; column; sizes.cols as usize]?;
    arrays.extend_from_slice(columns.as_slice())?;
    Ok(Listed::from_vec(arrays))
}
