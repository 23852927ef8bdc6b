ghost use Rattle.std.specs.Prelude.{◌≡◌, ◌≤◌, ◌<◌, ◌+◌, ◌*◌, ◌^◌, [], length, OnOk, IfOk};
ghost use Rattle.op_moves.specs.Built.{HasMade};
ghost use Rattle.op_moves.specs.Moves.{staged};
ghost use Rattle.op_skyline.specs.Computed.{HasComputed};
ghost use Rattle.op_skyline.specs.Emitted.{arrays_of, first_ops, moves_of, point_moves};
ghost use Rattle.op_skyline.specs.Fine.{IsFine};

use crate::emitting::{access, make_copies, make_sums, make_told, make_turned};
use crate::place::Place;
use crate::sizes::Sizes;
use ch_cells::{Listed, Memory};
use ch_ir::{Array, Binary, Op, Operand, Stage};
use ch_prune::Front;
use op_moves::Builder;
use std::alloc::Global;

/// Computes the bit, the row's point and its score, and the cells and the key for the first entry.
fn make_firsts(front: Front, sizes: &Sizes, builder: &mut Builder) -> Result<(), Memory>
    requires few { length sizes.now.places ≤ 4 }
    requires same { length sizes.now.max ≡ length sizes.now.places }
    requires width { sizes.now.width < 2 ^ 31 }
    ensures { OnOk result (HasComputed (first_ops sizes.now) builder.old builder.new) }
{
    let w = sizes.width;
    let n = sizes.places.len() as u32;
    builder.compute(Op::Two(w, Binary::Ne, front.operand(), Operand::Const(0)))?;
    make_turned(
        w + 1,
        sizes.places.as_slice(),
        sizes.max.as_slice(),
        builder,
    )?;
    make_sums(n, w + 1 + n, w + 1, builder)?;
    let score = Operand::Word(w + 2 * n);
    builder.compute(Op::Set(w + 1 + 2 * n, Operand::Const(1)))?;
    builder.compute(Op::Set(w + 2 + 2 * n, score))?;
    make_copies(n, w + 3 + 2 * n, w + 1, builder)?;
    builder.compute(Op::Set(w + 3 + 3 * n, score))
}

/// The moves of a point.
fn make_point(alloc: Global, array: u32, place: Place, builder: &mut Builder) -> Result<(), Memory>
    requires few { place.dimensions ≤ 4 }
    requires base { place.base + 32 < 2 ^ 32 }
    requires carry { place.carry + 32 < 2 ^ 32 }
    requires values { place.values + 32 < 2 ^ 32 }
    ensures { OnOk result (HasMade (point_moves place.dimensions array place.base place.gate place.carry place.key place.values place.score) builder.old builder.new) }
{
    let access = access(alloc, array, place)?;
    builder.reach(alloc, access)?;
    make_told(place, builder)
}

/// Where the words of the first point stand.
fn first_place(sizes: &Sizes) -> Place
    requires few { length sizes.now.places ≤ 4 }
    requires width { sizes.now.width < 2 ^ 31 }
    ensures { result ≡ record { dimensions = length sizes.now.places; base = sizes.now.width + 4 + 3 * length sizes.now.places; gate = sizes.now.width; carry = sizes.now.width + 1 + 2 * length sizes.now.places; key = sizes.now.width + 3 + 3 * length sizes.now.places; values = sizes.now.width + 1; score = sizes.now.width + 2 * length sizes.now.places } }
{
    let w = sizes.width;
    let n = sizes.places.len() as u32;
    Place {
        dimensions: n,
        base: w + 4 + 3 * n,
        gate: w,
        carry: w + 1 + 2 * n,
        key: w + 3 + 3 * n,
        values: w + 1,
        score: w + 2 * n,
    }
}

/// The stages of the program.
pub(crate) fn stages(alloc: Global, front: Front, sizes: &Sizes) -> Result<Listed<Stage>, Memory>
    requires { IsFine sizes.now }
    ensures { IfOk result (λ stages. stages ≡ staged [] (moves_of sizes.now)) }
{
    let mut builder = Builder::new(alloc);
    make_firsts(front, sizes, &mut builder)?;
    let mut place = first_place(sizes);
    for array in 0..sizes.points {
        make_point(alloc, array, place, &mut builder)?;
        place = place.next();
    }
    let (gate, zero) = (Operand::Word(place.gate), Operand::Const(0));
    builder.compute(Op::Two(place.base, Binary::Eq, gate, zero))?;
    builder.finish(alloc)
}

/// An array of one entry for each point.
pub(crate) fn arrays(alloc: Global, sizes: &Sizes) -> Result<Listed<Array>, Memory>
    requires { length sizes.now.places ≤ 4 }
    ensures { IfOk result (λ arrays. arrays ≡ arrays_of sizes.now) }
{
    let array = Array {
        entries: 1,
        cells: sizes.places.len() as u32 + 2,
    };
    let arrays = vec![in alloc; array; sizes.points as usize]?;
    Ok(Listed::from_vec(arrays))
}
