ghost use Rattle.std.specs.Prelude.{◌≡◌, ◌≤◌, ◌+◌, [], OnOk, IfOk};
ghost use Rattle.op_moves.specs.Built.{HasMade};
ghost use Rattle.op_moves.specs.Moves.{staged};
ghost use Rattle.op_having.specs.declared.sizes.Sizes.{Sizes as SizesOf};
ghost use Rattle.op_having.specs.Program.{arrays_of, bad_word, firsts, moves_of, one_hash, sum_access, sweep, value_operand};

use crate::sizes::Sizes;
use ch_cells::{Listed, Memory};
use ch_ir::{Access, Array, Binary, Op, Operand, Stage, Update};
use ch_prune::Front;
use op_moves::{Builder, always};
use std::alloc::Global;

/// Where a hash stands: its number, its first word, and the word that tells whether the row is bad so far.
#[derive(Clone, Copy)]
struct Place {
    hash: u32,
    base: u32,
    bad: u32,
}

/// The words of a list in a list of its own.
fn copied(alloc: Global, words: &[u32]) -> Result<Listed<u32>, Memory>
    ensures { IfOk result (λ copy. copy ≡ words.now) }
{
    let mut copy = Vec::new(alloc);
    copy.extend_from_slice(words)?;
    Ok(Listed::from_vec(copy))
}

/// What a row of the first pass counts.
fn value_operand(value: Option<u32>) -> Operand
    ensures { result ≡ value_operand value }
{
    match value {
        Some(place) => Operand::Word(place),
        None => Operand::Const(1),
    }
}

/// The moves before the hashes.
fn make_firsts(alloc: Global, sizes: &Sizes, builder: &mut Builder) -> Result<(), Memory>
    requires { sizes.now.width ≤ 20 }
    ensures { OnOk result (HasMade (firsts sizes.now) builder.old builder.new) }
{
    let w = sizes.width;
    let bit = Front::bit().operand();
    builder.compute(Op::Two(w, Binary::Ne, bit, Operand::Const(0)))?;
    let pass = Operand::Word(0);
    builder.compute(Op::Two(w + 1, Binary::Eq, pass, Operand::Const(1)))?;
    let value = value_operand(sizes.value);
    let first = Operand::Word(w + 1);
    builder.compute(Op::Pick(w + 2, first, value, Operand::Const(0)))
}

/// The access to the sum that a hash gives a key.
fn sum_access(alloc: Global, width: u32, place: Place) -> Result<Access, Memory>
    requires width { width ≤ 20 }
    requires room { place.base ≤ 1000 }
    ensures { (sizes : SizesOf) → sizes.width ≡ width → IfOk result (λ access. access ≡ sum_access sizes place.hash place.base) }
{
    let added = Update::AddSat(Operand::Word(width + 2));
    always(alloc, place.hash, place.base, width, added, place.base + 1)
}

/// The moves of a hash.
fn make_hash(
    alloc: Global,
    sizes: &Sizes,
    place: Place,
    builder: &mut Builder,
) -> Result<(), Memory>
    requires width { sizes.now.width ≤ 20 }
    requires room { place.base ≤ 1000 }
    ensures { OnOk result (HasMade (one_hash sizes.now place.hash place.base place.bad) builder.old builder.new) }
{
    let base = place.base;
    let keys = copied(alloc, sizes.keys.as_slice())?;
    builder.compute(Op::Hash(base, u64::from(place.hash), sizes.cells, keys))?;
    let access = sum_access(alloc, sizes.width, place)?;
    builder.reach(alloc, access)?;
    let sum = Operand::Word(base + 1);
    let above = Operand::Const(sizes.above);
    builder.compute(Op::Two(base + 3, Binary::Le, sum, above))?;
    let bad = Operand::Word(place.bad);
    let low = Operand::Word(base + 3);
    builder.compute(Op::Two(base + 4, Binary::Or, bad, low))
}

/// The moves of the hashes. Answers the word that tells whether the row is bad.
fn make_hashes(alloc: Global, sizes: &Sizes, builder: &mut Builder) -> Result<u32, Memory>
    requires width { sizes.now.width ≤ 20 }
    requires few { sizes.now.hashes ≤ 8 }
    ensures made { OnOk result (HasMade (sweep sizes.now sizes.now.hashes 0 (sizes.now.width + 3) (sizes.now.width + 1)) builder.old builder.new) }
    ensures bad { IfOk result (λ bad. bad ≡ bad_word sizes.now) }
{
    let mut base = sizes.width + 3;
    let mut bad = sizes.width + 1;
    for hash in 0..sizes.hashes {
        make_hash(alloc, sizes, Place { hash, base, bad }, builder)?;
        bad = base + 4;
        base += 5;
    }
    Ok(bad)
}

/// The stages of the program.
pub(crate) fn stages(alloc: Global, sizes: &Sizes) -> Result<Listed<Stage>, Memory>
    requires width { sizes.now.width ≤ 20 }
    requires few { sizes.now.hashes ≤ 8 }
    ensures { IfOk result (λ stages. stages ≡ staged [] (moves_of sizes.now)) }
{
    let mut builder = Builder::new(alloc);
    make_firsts(alloc, sizes, &mut builder)?;
    let bad = make_hashes(alloc, sizes, &mut builder)?;
    let verdict = sizes.width + 3 + 5 * sizes.hashes;
    let bit = Operand::Word(sizes.width);
    builder.compute(Op::Two(verdict, Binary::Le, bit, Operand::Word(bad)))?;
    builder.finish(alloc)
}

/// An array of sums for each hash.
pub(crate) fn arrays(alloc: Global, sizes: &Sizes) -> Result<Listed<Array>, Memory>
    ensures { IfOk result (λ arrays. arrays ≡ arrays_of sizes.now) }
{
    let array = Array {
        entries: sizes.cells,
        cells: 1,
    };
    let arrays = vec![in alloc; array; sizes.hashes as usize]?;
    Ok(Listed::from_vec(arrays))
}
