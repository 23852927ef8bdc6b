ghost use Rattle.std.specs.Prelude.{◌≡◌, ◌≤◌, ◌<◌, ◌+◌, ◌*◌, ◌^◌, [], ◌∷◌, OnOk, IfOk};
ghost use Rattle.op_moves.specs.Built.{HasMade};
ghost use Rattle.op_bloom.specs.Program.{bad_word, bloom_arrays, bloom_moves, filter_access, firsts, places_of_hash, sweep, tests_of_hash};

use crate::sizes::Sizes;
use ch_cells::{Listed, Memory};
use ch_ir::{Access, Array, Binary, Op, Operand, Update};
use ch_prune::Front;
use op_moves::{Builder, always};
use std::alloc::Global;

/// Where a hash stands: its number, its first word, and the word that tells whether the row is bad so far.
#[derive(Clone, Copy)]
struct Place {
    hash: u32,
    base: u32,
    bad: u32,
}

/// A list of one word.
fn one_word(alloc: Global, word: u32) -> Result<Listed<u32>, Memory>
    ensures { IfOk result (λ words. words ≡ word ∷ []) }
{
    let mut words = Listed::new(alloc);
    words.push(word)?;
    Ok(words)
}

/// The moves before the hashes.
fn make_firsts(sizes: Sizes, builder: &mut Builder) -> Result<(), Memory>
    requires width { sizes.width ≤ 20 }
    ensures { OnOk result (HasMade (firsts sizes) builder.old builder.new) }
{
    let w = sizes.width;
    let bit = Front::bit().operand();
    let side = Operand::Word(1);
    let none = Operand::Const(0);
    builder.compute(Op::Two(w, Binary::Ne, bit, none))?;
    let pass = Operand::Word(0);
    builder.compute(Op::Two(w + 1, Binary::Eq, pass, Operand::Const(1)))?;
    let left = Operand::Word(sizes.left);
    let right = Operand::Word(sizes.right);
    builder.compute(Op::Pick(w + 2, side, right, left))?;
    let first = Operand::Word(w + 1);
    builder.compute(Op::Two(w + 3, Binary::Eq, side, first))?;
    let cells = Operand::Const(i64::from(sizes.cells));
    builder.compute(Op::Pick(w + 4, Operand::Word(w + 3), cells, none))
}

/// The access to a filter's entry.
fn filter_access(alloc: Global, sizes: Sizes, place: Place) -> Result<Access, Memory>
    requires room { place.base ≤ 1000 }
    ensures { IfOk result (λ access. access ≡ filter_access sizes place.hash place.base) }
{
    let base = place.base;
    let put = Update::Or(Operand::Word(base + 4));
    always(alloc, place.hash, base + 3, sizes.width, put, base + 5)
}

/// The moves of a hash up to its access: the bit and the entry of a key.
fn make_places(
    alloc: Global,
    sizes: Sizes,
    place: Place,
    builder: &mut Builder,
) -> Result<(), Memory>
    requires width { sizes.width ≤ 20 }
    requires hash { place.hash ≤ 8 }
    requires room { place.base ≤ 1000 }
    ensures { OnOk result (HasMade (places_of_hash sizes place.hash place.base) builder.old builder.new) }
{
    let w = sizes.width;
    let base = place.base;
    let seed = 2 * u64::from(place.hash);
    let key = one_word(alloc, w + 2)?;
    builder.compute(Op::Hash(base, seed, 32, key))?;
    builder.compute(Op::Bit(base + 1, Operand::Word(base)))?;
    let key = one_word(alloc, w + 2)?;
    builder.compute(Op::Hash(base + 2, seed + 1, sizes.cells, key))?;
    let half = Operand::Word(w + 4);
    let cell = Operand::Word(base + 2);
    builder.compute(Op::Two(base + 3, Binary::Add, half, cell))?;
    let first = Operand::Word(w + 1);
    let bit = Operand::Word(base + 1);
    builder.compute(Op::Pick(base + 4, first, bit, Operand::Const(0)))?;
    let access = filter_access(alloc, sizes, place)?;
    builder.reach(alloc, access)
}

/// The moves of a hash after its access: whether the entry lacks the bit.
fn make_tests(place: Place, builder: &mut Builder) -> Result<(), Memory>
    requires room { place.base ≤ 1000 }
    ensures { OnOk result (HasMade (tests_of_hash place.base place.bad) builder.old builder.new) }
{
    let base = place.base;
    let entry = Operand::Word(base + 5);
    let bit = Operand::Word(base + 1);
    builder.compute(Op::Two(base + 7, Binary::Mask, entry, bit))?;
    let masked = Operand::Word(base + 7);
    builder.compute(Op::Two(base + 8, Binary::Eq, masked, Operand::Const(0)))?;
    let bad = Operand::Word(place.bad);
    let clear = Operand::Word(base + 8);
    builder.compute(Op::Two(base + 9, Binary::Or, bad, clear))
}

/// The moves of the hashes. Answers the word that tells whether the row is bad.
fn make_hashes(alloc: Global, sizes: Sizes, builder: &mut Builder) -> Result<u32, Memory>
    requires width { sizes.width ≤ 20 }
    requires few { sizes.hashes ≤ 8 }
    ensures made { OnOk result (HasMade (sweep sizes sizes.hashes 0 (sizes.width + 5) (sizes.width + 1)) builder.old builder.new) }
    ensures bad { IfOk result (λ bad. bad ≡ bad_word sizes) }
{
    let mut base = sizes.width + 5;
    let mut bad = sizes.width + 1;
    for hash in 0..sizes.hashes {
        let place = Place { hash, base, bad };
        make_places(alloc, sizes, place, builder)?;
        make_tests(place, builder)?;
        bad = base + 9;
        base += 10;
    }
    Ok(bad)
}

/// The moves of the filters. Answers the word that tells whether the row is bad: it is a row of the first pass or, where its
/// bit is set, fails the test.
pub fn make_filters(alloc: Global, sizes: Sizes, builder: &mut Builder) -> Result<u32, Memory>
    requires width { sizes.width ≤ 20 }
    requires few { sizes.hashes ≤ 8 }
    ensures made { OnOk result (HasMade (bloom_moves sizes) builder.old builder.new) }
    ensures bad { IfOk result (λ bad. bad ≡ bad_word sizes) }
{
    make_firsts(sizes, builder)?;
    make_hashes(alloc, sizes, builder)
}

/// An array for each hash, with the filters of both sides.
pub fn filter_arrays(alloc: Global, sizes: Sizes) -> Result<Vec<Array>, Memory>
    requires { 2 * sizes.cells < 2 ^ 32 }
    ensures { IfOk result (λ arrays. arrays.items ≡ bloom_arrays sizes) }
{
    let array = Array {
        entries: 2 * sizes.cells,
        cells: 1,
    };
    Ok(vec![in alloc; array; sizes.hashes as usize]?)
}
