ghost use Rattle.std.specs.Prelude.{◌≡◌};
ghost use Rattle.ch_ir.specs.Machine.{cells_of, op_to};
ghost use Rattle.ch_ir.specs.Rules.{entries_of};

use crate::program::{Array, Op};

/// The word that an op assigns.
pub fn to_of(op: &Op) -> u32
    ensures { result ≡ op_to op.now }
{
    match op {
        Op::Set(to, _) => *to,
        Op::Two(to, _, _, _) => *to,
        Op::Bit(to, _) => *to,
        Op::Pick(to, _, _, _) => *to,
        Op::Hash(to, _, _, _) => *to,
    }
}

/// The cells of an entry of an array, 0 where the array isn't there.
#[tactic(auto, using(crate::proofs::Arrays::cells_at, crate::proofs::Arrays::cells_past))]
pub fn cells_of(arrays: &[Array], array: u32) -> u32
    ensures { result ≡ cells_of arrays.now array }
{
    if (array as usize) < arrays.len() {
        arrays[array as usize].cells
    } else {
        0
    }
}

/// The entries of an array, 0 where the array isn't there.
#[tactic(auto, using(crate::proofs::Arrays::entries_at, crate::proofs::Arrays::entries_past))]
pub fn entries_of(arrays: &[Array], array: u32) -> u32
    ensures { result ≡ entries_of arrays.now array }
{
    if (array as usize) < arrays.len() {
        arrays[array as usize].entries
    } else {
        0
    }
}
