ghost use Rattle.std.specs.Prelude.{◌≡◌, ◌<◌, map, ℕ, ℤ, List, length, set, if◌then◌else◌};
ghost use Rattle.ch_ir.specs.Machine.{two_of, bit_of, op_to, truth, is_set};
ghost use Rattle.ch_ir.specs.Hash.{hash_of};
ghost use Rattle.ch_pipe.specs.Total.{value_at, values_at, total_value, total_ops, OperandBelow, NumbersBelow, OpRoom, OpsRoom};

use ch_ir::{Binary, Op, Operand, hash_more, hash_start, to_of};

/// The value of an operand.
pub fn value_of(a: Operand, words: &[i64]) -> i64
    requires { OperandBelow (length words.now) a }
    ensures { result ≡ value_at words.now a }
{
    match a {
        Operand::Word(w) => words[w as usize],
        Operand::Const(c) => c,
    }
}

pub fn as_word(holds: bool) -> i64
    ensures { result ≡ truth holds }
{
    if holds { 1 } else { 0 }
}

/// What an op of two operands computes.
pub fn two(kind: Binary, a: i64, b: i64) -> i64
    ensures { result ≡ two_of kind a b }
{
    match kind {
        Binary::Add => a.saturating_add(b),
        Binary::Sub => a.saturating_sub(b),
        Binary::Lt => as_word(a < b),
        Binary::Le => as_word(a <= b),
        Binary::Eq => as_word(a == b),
        Binary::Ne => as_word(a != b),
        Binary::And => as_word(a != 0 && b != 0),
        Binary::Or => as_word(a != 0 || b != 0),
        Binary::Mask => a & b,
    }
}

/// 2 to the power `a`, or 0.
pub fn bit(a: i64) -> i64
    ensures { result ≡ bit_of a }
{
    if a >= 0 && a < 62 { 1 << a } else { 0 }
}

/// The hash of some words.
#[tactic(auto, unfolding(ch_ir::specs::Hash::hash_of))]
fn hash_at(seed: u64, numbers: &[u32], words: &[i64], n: u64) -> u64
    requires modulus { 0 < n }
    requires room { NumbersBelow (length words.now) numbers.now }
    ensures value { result ≡ hash_of seed (values_at words.now numbers.now) n }
    ensures below { result < n }
{
    let mut h = hash_start(seed);
    for number in numbers {
        h = hash_more(h, words[*number as usize]);
    }
    h % n
}

fn pick(a: i64, b: i64, c: i64) -> i64
    ensures { result ≡ (if is_set a then b else c) }
{
    if a != 0 { b } else { c }
}

/// What an op assigns.
pub fn run_op(op: &Op, words: &[i64]) -> i64
    requires { OpRoom (length words.now) op.now }
    ensures { result ≡ total_value words.now op.now }
{
    match op {
        Op::Set(_, a) => value_of(*a, words),
        Op::Two(_, kind, a, b) => two(*kind, value_of(*a, words), value_of(*b, words)),
        Op::Bit(_, a) => bit(value_of(*a, words)),
        Op::Pick(_, a, b, c) => pick(
            value_of(*a, words),
            value_of(*b, words),
            value_of(*c, words),
        ),
        Op::Hash(_, seed, modulus, numbers) => hash_at(
            *seed,
            numbers.as_slice(),
            words,
            u64::from(*modulus),
        ) as i64,
    }
}

/// Runs one op.
fn assign(op: &Op, words: &mut [i64])
    requires { OpRoom (length words.old) op.now }
    ensures { words.new ≡ set words.old (op_to op.now) (total_value words.old op.now) }
{
    let value = run_op(op, words);
    words[to_of(op) as usize] = value;
}

/// Runs the ops in order.
pub fn run_ops(ops: &[Op], words: &mut [i64])
    requires { OpsRoom (length words.old) ops.now }
    ensures { words.new ≡ total_ops ops.now words.old }
{
    for op in ops {
        assign(op, words);
    }
}
