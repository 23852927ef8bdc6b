ghost use Rattle.std.specs.Prelude.{◌≡◌, ◌≤◌, ◌<◌, ◌+◌, ◌^◌, [], pos, if◌then◌else◌, OnOk, IfOk};
ghost use Rattle.op_moves.specs.Built.{HasMade};
ghost use Rattle.op_moves.specs.Moves.{staged};
ghost use Rattle.op_topn.specs.Policy.{distance};
ghost use Rattle.op_topn.specs.Emitted.{arrays_of, count_access, first_access, firsts, greatest_access, moves_of, register, step};

use crate::sizes::Sizes;
use ch_cells::{Listed, Memory};
use ch_ir::{Access, Array, Binary, Op, Operand, Stage, Test, Update};
use ch_prune::Front;
use op_moves::Builder;
use std::alloc::Global;

/// How far the threshold stands above the least of the first values.
fn distance(gap: u32, threshold: u32) -> i64
    requires gap { gap ≤ 2 ^ 20 }
    requires few { threshold ≤ 40 }
    ensures { result ≡ pos (distance gap threshold) }
{
    let gaps = 2u64.pow(threshold) - 1;
    (u64::from(gap) * gaps) as i64
}

/// An access to the only cell of an array.
fn register(
    alloc: Global,
    array: u32,
    guard: u32,
    test: Test,
    key: Listed<Operand>,
    update: Update,
    old: u32,
) -> Result<Access, Memory>
    requires { old + 1 < 2 ^ 32 }
    ensures { IfOk result (λ access. access ≡ register array guard test key update old) }
{
    let yes = Listed::from_vec(Vec::from_array(alloc, [update])?);
    let no = Listed::from_vec(Vec::from_array(alloc, [Update::Keep])?);
    Ok(Access {
        array,
        index: Operand::Const(0),
        guard: Operand::Word(guard),
        test,
        key,
        yes,
        no,
        old,
        hit: old + 1,
    })
}

/// Counts the first rows, and tells whether this is one of them.
fn first_access(alloc: Global, sizes: Sizes) -> Result<Access, Memory>
    requires { sizes.width < 2 ^ 31 }
    ensures { IfOk result (λ access. access ≡ first_access sizes.width sizes.limit) }
{
    let limit = Operand::Const(i64::from(sizes.limit));
    let key = Listed::from_vec(Vec::from_array(alloc, [limit])?);
    let count = Update::AddSat(Operand::Const(1));
    let w = sizes.width;
    register(alloc, 0, w, Test::Less(0), key, count, w + 1)
}

/// Keeps the greatest of the first rows' values, turned.
fn greatest_access(alloc: Global, width: u32) -> Result<Access, Memory>
    requires { width < 2 ^ 31 }
    ensures { IfOk result (λ access. access ≡ greatest_access width) }
{
    let raise = Update::Max(Operand::Word(width + 4));
    let key = Listed::new(alloc);
    register(alloc, 1, width, Test::Always, key, raise, width + 5)
}

/// Counts the later rows that reach a threshold.
fn count_access(alloc: Global, width: u32, bad: u32, threshold: u32) -> Result<Access, Memory>
    requires threshold { threshold ≤ 40 }
    requires width { width + 7 < 2 ^ 32 }
    requires room { bad + 7 < 2 ^ 32 }
    ensures { IfOk result (λ access. access ≡ count_access width bad threshold) }
{
    let count = Update::AddSat(Operand::Word(bad + 2));
    let key = Listed::new(alloc);
    register(
        alloc,
        threshold + 1,
        width + 7,
        Test::Always,
        key,
        count,
        bad + 3,
    )
}

/// What a value goes through with 2^61, so that a better value is less.
fn turn(descending: bool) -> Binary
    ensures { result ≡ (if descending then Binary.Sub else Binary.Add) }
{
    if descending { Binary::Sub } else { Binary::Add }
}

/// The moves before those of the thresholds.
fn make_firsts(
    alloc: Global,
    front: Front,
    sizes: Sizes,
    builder: &mut Builder,
) -> Result<(), Memory>
    requires { sizes.width < 2 ^ 31 }
    ensures { OnOk result (HasMade (firsts sizes) builder.old builder.new) }
{
    let w = sizes.width;
    let zero = Operand::Const(0);
    builder.compute(Op::Two(w, Binary::Ne, front.operand(), zero))?;
    let first = first_access(alloc, sizes)?;
    builder.reach(alloc, first)?;
    let (middle, value) = (Operand::Const(1 << 61), Operand::Word(sizes.value));
    builder.compute(Op::Two(w + 3, turn(sizes.descending), middle, value))?;
    let is_first = Operand::Word(w + 2);
    let turned = Operand::Word(w + 3);
    builder.compute(Op::Pick(w + 4, is_first, turned, zero))?;
    let greatest = greatest_access(alloc, w)?;
    builder.reach(alloc, greatest)?;
    builder.compute(Op::Two(w + 7, Binary::Lt, is_first, Operand::Word(w)))?;
    builder.compute(Op::Two(w + 8, Binary::Lt, Operand::Word(w + 5), turned))?;
    let (later, below) = (Operand::Word(w + 7), Operand::Word(w + 8));
    builder.compute(Op::Two(w + 9, Binary::And, later, below))
}

/// The moves of a threshold, after the word that tells whether the row is bad so far.
fn make_step(
    alloc: Global,
    sizes: Sizes,
    threshold: u32,
    bad: u32,
    builder: &mut Builder,
) -> Result<(), Memory>
    requires gap { sizes.gap ≤ 2 ^ 20 }
    requires few { threshold ≤ 40 }
    requires width { sizes.width + 7 < 2 ^ 32 }
    requires room { bad + 7 < 2 ^ 32 }
    ensures { OnOk result (HasMade (step sizes threshold bad) builder.old builder.new) }
{
    let w = sizes.width;
    let distance = Operand::Const(distance(sizes.gap, threshold));
    builder.compute(Op::Two(bad + 1, Binary::Add, Operand::Word(w + 3), distance))?;
    let (far, greatest) = (Operand::Word(bad + 1), Operand::Word(w + 5));
    builder.compute(Op::Two(bad + 2, Binary::Le, far, greatest))?;
    let count = count_access(alloc, w, bad, threshold)?;
    builder.reach(alloc, count)?;
    let wanted = Operand::Const(i64::from(sizes.limit));
    builder.compute(Op::Two(bad + 5, Binary::Le, wanted, Operand::Word(bad + 3)))?;
    let (reaches, enough) = (Operand::Word(bad + 2), Operand::Word(bad + 5));
    builder.compute(Op::Two(bad + 6, Binary::Lt, reaches, enough))?;
    let (before, beaten) = (Operand::Word(bad), Operand::Word(bad + 6));
    builder.compute(Op::Two(bad + 7, Binary::Or, before, beaten))
}

/// The stages of the program.
pub(crate) fn stages(alloc: Global, front: Front, sizes: Sizes) -> Result<Listed<Stage>, Memory>
    requires gap { sizes.gap ≤ 2 ^ 20 }
    requires few { sizes.steps ≤ 40 }
    requires width { sizes.width < 2 ^ 31 }
    ensures { IfOk result (λ stages. stages ≡ staged [] (moves_of sizes)) }
{
    let mut builder = Builder::new(alloc);
    make_firsts(alloc, front, sizes, &mut builder)?;
    let mut bad = sizes.width + 9;
    for done in 0..sizes.steps {
        make_step(alloc, sizes, done + 1, bad, &mut builder)?;
        bad += 7;
    }
    let (bit, bad_word) = (Operand::Word(sizes.width), Operand::Word(bad));
    builder.compute(Op::Two(bad + 1, Binary::Le, bit, bad_word))?;
    builder.finish(alloc)
}

/// An array of one cell for the number of the first rows, one for the greatest of their values, and one for each threshold.
pub(crate) fn arrays(alloc: Global, sizes: Sizes) -> Result<Listed<Array>, Memory>
    requires { sizes.steps ≤ 40 }
    ensures { IfOk result (λ arrays. arrays ≡ arrays_of sizes) }
{
    let array = Array {
        entries: 1,
        cells: 1,
    };
    let arrays = vec![in alloc; array; 2 + sizes.steps as usize]?;
    Ok(Listed::from_vec(arrays))
}
