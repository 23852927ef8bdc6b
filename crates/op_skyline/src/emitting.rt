ghost use Rattle.std.specs.Prelude.{◌≡◌, ◌≤◌, ◌<◌, ◌+◌, ◌*◌, ◌^◌, [], length, pos, if◌then◌else◌, OnOk, IfOk};
ghost use Rattle.op_moves.specs.Built.{HasMade};
ghost use Rattle.op_skyline.specs.Computed.{HasComputed};
ghost use Rattle.op_skyline.specs.Emitted.{carry_ops, compare_ops, copy_ops, point_access, puts_from, sum_ops, told_ops, turned_ops};

use crate::place::Place;
use ch_cells::{Listed, Memory};
use ch_ir::{Access, Binary, Op, Operand, Test, Update};
use op_moves::Builder;
use std::alloc::Global;

/// What a word goes through with 0, so that a better one is greater.
fn turn(max: bool) -> Binary
    ensures { result ≡ (if max then Binary.Add else Binary.Sub) }
{
    if max { Binary::Add } else { Binary::Sub }
}

/// Computes the oriented words of a row at the places, in the words from `to` on.
pub(crate) fn make_turned(
    to: u32,
    places: &[u32],
    max: &[bool],
    builder: &mut Builder,
) -> Result<(), Memory>
    requires same { length max.now ≡ length places.now }
    requires room { to + length places.now < 2 ^ 32 }
    ensures { OnOk result (HasComputed (turned_ops to places.now max.now) builder.old builder.new) }
{
    for at in 0..places.len() {
        let place = Operand::Word(places[at]);
        let turned = Op::Two(to + at as u32, turn(max[at]), Operand::Const(0), place);
        builder.compute(turned)?;
    }
    Ok(())
}

/// Computes the sums of the first of so many words, in the words from `to` on.
pub(crate) fn make_sums(words: u32, to: u32, from: u32, builder: &mut Builder) -> Result<(), Memory>
    requires to { to + words < 2 ^ 32 }
    requires from { from + words < 2 ^ 32 }
    ensures { OnOk result (HasComputed (sum_ops words to from (Operand.Const (pos 0))) builder.old builder.new) }
{
    let mut so_far = Operand::Const(0);
    for done in 0..words {
        let sum = Op::Two(to + done, Binary::Add, so_far, Operand::Word(from + done));
        builder.compute(sum)?;
        so_far = Operand::Word(to + done);
    }
    Ok(())
}

/// Copies so many words.
pub(crate) fn make_copies(
    words: u32,
    to: u32,
    from: u32,
    builder: &mut Builder,
) -> Result<(), Memory>
    requires to { to + words < 2 ^ 32 }
    requires from { from + words < 2 ^ 32 }
    ensures { OnOk result (HasComputed (copy_ops words to from) builder.old builder.new) }
{
    for done in 0..words {
        builder.compute(Op::Set(to + done, Operand::Word(from + done)))?;
    }
    Ok(())
}

/// Computes whether the row's words are all at most the old ones, and the word `told` was set.
fn make_compared(
    words: u32,
    row: u32,
    old: u32,
    told: u32,
    builder: &mut Builder,
) -> Result<(), Memory>
    requires row { row + words < 2 ^ 32 }
    requires old { old + words < 2 ^ 32 }
    requires told { told + 2 * words + 2 < 2 ^ 32 }
    ensures { OnOk result (HasComputed (compare_ops words row old told) builder.old builder.new) }
{
    let mut told = told;
    for done in 0..words {
        let (mine, other) = (Operand::Word(row + done), Operand::Word(old + done));
        builder.compute(Op::Two(told + 1, Binary::Le, mine, other))?;
        let (before, here) = (Operand::Word(told), Operand::Word(told + 1));
        builder.compute(Op::Two(told + 2, Binary::And, before, here))?;
        told += 2;
    }
    Ok(())
}

/// Carries the old words on where the word `hit` is set, and else those that were carried before.
fn make_carried(
    words: u32,
    to: u32,
    hit: u32,
    old: u32,
    carry: u32,
    builder: &mut Builder,
) -> Result<(), Memory>
    requires to { to + words < 2 ^ 32 }
    requires old { old + words < 2 ^ 32 }
    requires carry { carry + words < 2 ^ 32 }
    ensures { OnOk result (HasComputed (carry_ops words to hit old carry) builder.old builder.new) }
{
    for done in 0..words {
        let (old, carried) = (Operand::Word(old + done), Operand::Word(carry + done));
        builder.compute(Op::Pick(to + done, Operand::Word(hit), old, carried))?;
    }
    Ok(())
}

/// Puts so many words.
fn puts(alloc: Global, words: u32, from: u32) -> Result<Listed<Update>, Memory>
    requires { from + words < 2 ^ 32 }
    ensures { IfOk result (λ updates. updates ≡ puts_from words from) }
{
    let mut puts = Listed::new(alloc);
    for done in 0..words {
        puts.push(Update::Put(Operand::Word(from + done)))?;
    }
    Ok(puts)
}

/// The access of a point: where the entry is free or of a lesser score than the key, it takes the carried cells.
pub(crate) fn access(alloc: Global, array: u32, place: Place) -> Result<Access, Memory>
    requires few { place.dimensions ≤ 4 }
    requires base { place.base + 32 < 2 ^ 32 }
    requires carry { place.carry + 32 < 2 ^ 32 }
    ensures { IfOk result (λ access. access ≡ point_access place.dimensions array place.base place.gate place.carry place.key) }
{
    let cells = place.dimensions + 2;
    let key = Listed::from_vec(Vec::from_array(alloc, [Operand::Word(place.key)])?);
    let yes = puts(alloc, cells, place.carry)?;
    let no = Listed::from_vec(vec![in alloc; Update::Keep; cells as usize]?);
    Ok(Access {
        array,
        index: Operand::Const(0),
        guard: Operand::Word(place.gate),
        test: Test::Less(1),
        key,
        yes,
        no,
        old: place.base,
        hit: place.base + place.dimensions + 2,
    })
}

/// Computes whether the point dominates the row, whether the next one is open, and what is carried on to it.
pub(crate) fn make_told(place: Place, builder: &mut Builder) -> Result<(), Memory>
    requires few { place.dimensions ≤ 4 }
    requires base { place.base + 32 < 2 ^ 32 }
    requires carry { place.carry + 32 < 2 ^ 32 }
    requires values { place.values + 32 < 2 ^ 32 }
    ensures { OnOk result (HasComputed (told_ops place.dimensions place.base place.gate place.carry place.values place.score) builder.old builder.new) }
{
    let (n, base) = (place.dimensions, place.base);
    let (mine, other) = (Operand::Word(place.score), Operand::Word(base + 1));
    builder.compute(Op::Two(base + n + 3, Binary::Lt, mine, other))?;
    make_compared(n, place.values, base + 2, base + n + 3, builder)?;
    let (hit, better) = (Operand::Word(base + n + 2), Operand::Word(base + 3 * n + 3));
    builder.compute(Op::Two(base + 3 * n + 4, Binary::Lt, hit, better))?;
    let (over, gate) = (Operand::Word(base + 3 * n + 4), Operand::Word(place.gate));
    builder.compute(Op::Two(base + 3 * n + 5, Binary::Lt, over, gate))?;
    make_carried(
        n + 2,
        base + 3 * n + 6,
        base + n + 2,
        base,
        place.carry,
        builder,
    )?;
    let greatest = Operand::Const(i64::MAX);
    builder.compute(Op::Pick(base + 4 * n + 8, hit, greatest, mine))
}
