ghost use Rattle.std.specs.Prelude.{◌≡◌, ◌+◌, ◌^◌, ◌<◌, ◌≤◌, map, IfOk};
ghost use Rattle.ch_ir.specs.Measure.{op_end, operand_end, operands_end};
ghost use Rattle.ch_ir.specs.declared.program.Operand.TheVariants.{Word};
ghost use Rattle.ch_pack_laws.specs.Packed.{moved_op, moved_operand, moved_word};

use ch_cells::{Listed, Memory};
use ch_ir::{Op, Operand};
use ch_pack_laws::Seat;
use std::alloc::Global;

#[tactic(auto, unfolding(ch_pack_laws::specs::Packed::moved_word))]
pub(crate) fn moved_word(seat: Seat, word: u32) -> u32
    requires { word + seat.shift < 2 ^ 32 }
    ensures { result ≡ moved_word seat word }
{
    if word < seat.width {
        word
    } else {
        word + seat.shift
    }
}

pub(crate) fn moved_operand(seat: Seat, operand: Operand) -> Operand
    requires { operand_end operand + seat.shift ≤ 2 ^ 32 }
    ensures { result ≡ moved_operand seat operand }
{
    match operand {
        Operand::Word(word) => Operand::Word(moved_word(seat, word)),
        Operand::Const(value) => Operand::Const(value),
    }
}

fn moved_words(alloc: Global, seat: Seat, words: &[u32]) -> Result<Listed<u32>, Memory>
    requires { operands_end (map Word words.now) + seat.shift ≤ 2 ^ 32 }
    ensures { IfOk result (λ moved. moved ≡ map (moved_word seat) words.now) }
{
    let mut moved = Listed::new(alloc);
    for word in words {
        moved.push(moved_word(seat, *word))?;
    }
    Ok(moved)
}

pub(crate) fn moved_op(alloc: Global, seat: Seat, op: &Op) -> Result<Op, Memory>
    requires { op_end op.now + seat.shift ≤ 2 ^ 32 }
    ensures { IfOk result (λ moved. moved ≡ moved_op seat op.now) }
{
    match op {
        Op::Set(to, a) => Ok(Op::Set(moved_word(seat, *to), moved_operand(seat, *a))),
        Op::Two(to, kind, a, b) => {
            let (a, b) = (moved_operand(seat, *a), moved_operand(seat, *b));
            Ok(Op::Two(moved_word(seat, *to), *kind, a, b))
        }
        Op::Bit(to, a) => Ok(Op::Bit(moved_word(seat, *to), moved_operand(seat, *a))),
        Op::Pick(to, a, b, c) => {
            let (b, c) = (moved_operand(seat, *b), moved_operand(seat, *c));
            Ok(Op::Pick(moved_word(seat, *to), moved_operand(seat, *a), b, c))
        }
        Op::Hash(to, seed, modulus, words) => {
            let words = moved_words(alloc, seat, words.as_slice())?;
            Ok(Op::Hash(moved_word(seat, *to), *seed, *modulus, words))
        }
    }
}
