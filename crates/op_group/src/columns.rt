ghost use Rattle.std.specs.Prelude.{◌≡◌, ◌+◌, ◌-◌, ◌≤◌, ◌<◌, ◌^◌, [], ◌∷◌, ◌++◌, length, pos, replicate, IfOk, OnOk};
ghost use Rattle.ch_ir.specs.declared.program.Operand.TheVariants.{Word, Const};
ghost use Rattle.ch_ir.specs.declared.program.Update.TheVariants.{Put, Keep};
ghost use Rattle.op_moves.specs.Built.{HasMade};
ghost use Rattle.op_moves.specs.Moves.{Reach};
ghost use Rattle.op_group.specs.Program.{bad_after, column, columns, other_pair, put_words, told};

use ch_cells::{Listed, Memory};
use ch_ir::{Access, Binary, Op, Operand, Test, Update};
use op_cache::words_of;
use op_moves::Builder;
use std::alloc::Global;

/// Where a column of the pairs stands: its array, its first word, and the words of its gate, of the hash row, of the value,
/// and of whether a column before has pruned.
#[derive(Clone, Copy)]
pub(crate) struct Place {
    pub array: u32,
    pub base: u32,
    pub gate: u32,
    pub row: u32,
    pub value: u32,
    pub bad: u32,
}

/// A mark, the words of the key, and what becomes of the best.
fn pair_with(alloc: Global, words: &[u32], best: Update) -> Result<Listed<Update>, Memory>
    ensures { IfOk result (λ updates. updates ≡ Put (Const (pos 1)) ∷ put_words words.now ++ best ∷ []) }
{
    let mut updates = Listed::new(alloc);
    updates.push(Update::Put(Operand::Const(1)))?;
    for word in words {
        updates.push(Update::Put(Operand::Word(*word)))?;
    }
    updates.push(best)?;
    Ok(updates)
}

fn kept(alloc: Global, cells: u32) -> Result<Listed<Update>, Memory>
    ensures { IfOk result (λ updates. updates ≡ replicate cells Keep) }
{
    let mut updates = Listed::new(alloc);
    for at in 0..cells {
        let _ = at;
        updates.push(Update::Keep)?;
    }
    Ok(updates)
}

/// Where the key isn't met only the last column takes the row's pair.
fn other_pair(alloc: Global, left: u32, words: &[u32], value: u32) -> Result<Listed<Update>, Memory>
    requires { length words.now ≤ 16 }
    ensures { IfOk result (λ updates. updates ≡ other_pair left words.now value) }
{
    if left == 0 {
        pair_with(alloc, words, Update::Put(Operand::Word(value)))
    } else {
        kept(alloc, words.len() as u32 + 2)
    }
}

/// The access of a column, where `left` more follow.
fn column(alloc: Global, left: u32, place: Place, words: &[u32]) -> Result<Access, Memory>
    requires keys { length words.now ≤ 16 }
    requires base { place.base < 2 ^ 17 }
    ensures { IfOk result (λ access. access ≡ column left place.array place.base place.gate place.row place.value words.now) }
{
    let keys = words.len() as u32;
    let key = words_of(alloc, words)?;
    let yes = pair_with(alloc, words, Update::Max(Operand::Word(place.value)))?;
    let no = other_pair(alloc, left, words, place.value)?;
    Ok(Access {
        array: place.array,
        index: Operand::Word(place.row),
        guard: Operand::Word(place.gate),
        test: Test::KeyEqOrFree(keys),
        key,
        yes,
        no,
        old: place.base,
        hit: place.base + keys + 2,
    })
}

/// Whether the column prunes, whether one so far does, and the gate of the next one.
fn emit_told(builder: &mut Builder, place: Place, keys: u32) -> Result<(), Memory>
    requires keys { keys ≤ 16 }
    requires base { place.base < 2 ^ 17 }
    ensures { OnOk result (HasMade (told keys place.base place.gate place.value place.bad) builder.old builder.new) }
{
    let base = place.base + keys;
    let hit = Operand::Word(base + 2);
    builder.compute(Op::Two(
        base + 3,
        Binary::Le,
        Operand::Word(place.value),
        Operand::Word(base + 1),
    ))?;
    builder.compute(Op::Two(base + 4, Binary::And, hit, Operand::Word(base + 3)))?;
    builder.compute(Op::Two(
        base + 5,
        Binary::Or,
        Operand::Word(place.bad),
        Operand::Word(base + 4),
    ))?;
    builder.compute(Op::Two(base + 6, Binary::Lt, hit, Operand::Word(place.gate)))
}

/// A column and what it tells.
fn emit_column(
    builder: &mut Builder,
    alloc: Global,
    left: u32,
    place: Place,
    words: &[u32],
) -> Result<(), Memory>
    requires keys { length words.now ≤ 16 }
    requires base { place.base < 2 ^ 17 }
    ensures { OnOk result (HasMade (Reach (column left place.array place.base place.gate place.row place.value words.now) ∷ told (length words.now) place.base place.gate place.value place.bad) builder.old builder.new) }
{
    let access = column(alloc, left, place, words)?;
    builder.reach(alloc, access)?;
    emit_told(builder, place, words.len() as u32)
}

/// The columns of the pairs.
pub(crate) fn emit_columns(
    builder: &mut Builder,
    alloc: Global,
    cols: u32,
    first: Place,
    words: &[u32],
) -> Result<(), Memory>
    requires cols { cols ≤ 16 }
    requires keys { length words.now ≤ 16 }
    requires array { first.array < 2 ^ 16 }
    requires base { first.base < 2 ^ 16 }
    ensures { OnOk result (HasMade (columns cols first.array first.base first.gate first.row first.value first.bad words.now) builder.old builder.new) }
{
    let keys = words.len() as u32;
    let mut base = first.base;
    let mut gate = first.gate;
    let mut bad = first.bad;
    for at in 0..cols {
        let place = Place {
            array: first.array + at,
            base,
            gate,
            row: first.row,
            value: first.value,
            bad,
        };
        emit_column(builder, alloc, cols - at - 1, place, words)?;
        gate = base + keys + 6;
        bad = base + keys + 5;
        base = base + keys + 7;
    }
    Ok(())
}

/// The word that tells whether a column has pruned, after at least one.
pub(crate) fn bad_after(keys: u32, cols: u32, base: u32, bad: u32) -> u32
    requires keys { keys ≤ 16 }
    requires cols { cols ≤ 16 }
    requires some { 1 ≤ cols }
    requires base { base < 2 ^ 16 }
    ensures { result ≡ bad_after keys cols base bad }
{
    let _ = bad;
    base + (keys + 7) * (cols - 1) + keys + 5
}
