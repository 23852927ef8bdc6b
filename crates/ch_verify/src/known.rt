ghost use Rattle.std.specs.Prelude.{◌≡◌, ◌<◌, ◌≤◌, ◌+◌, ℕ, List, [], ◌∷◌, map, length, is_some, IsTrue, IfNone};
ghost use Rattle.ch_ir.specs.declared.program.Operand.TheVariants.{Word};
ghost use Rattle.ch_ir.specs.Measure.{ops_end};
ghost use Rattle.ch_ir.specs.Rules.{after_ops, first_unknown, has_modulus, hull, learn, op_refusal, op_interval, operands_of, ops_refusal, interval_of, two_interval, whole};
ghost use Rattle.ch_verify.specs.Fits.{AllConstFit, AllOpsFit, ConstFits, ModulusFits, OpFits};
ghost use Rattle.ch_verify.specs.Known.{known_of};

use ch_ir::{Binary, Interval, Op, Operand, Refused, to_of};

/// All of `i64`.
pub const WHOLE: Interval = Interval {
    low: i64::MIN,
    high: i64::MAX,
};

/// The values of a test.
pub const FLAG: Interval = Interval { low: 0, high: 1 };

pub fn is_known(w: u32, known: &[Option<Interval>]) -> bool
    ensures { result ≡ is_some (known_of known.now w) }
{
    match known.get(w as usize) {
        Some(Some(_)) => true,
        _ => false,
    }
}

/// What a word can be.
fn word_interval(w: u32, known: &[Option<Interval>]) -> Interval
    ensures { result ≡ interval_of (known_of known.now) (Word w) }
{
    match known.get(w as usize) {
        Some(Some(interval)) => *interval,
        _ => WHOLE,
    }
}

/// What an operand can be.
pub fn interval_of(a: Operand, known: &[Option<Interval>]) -> Interval
    ensures { result ≡ interval_of (known_of known.now) a }
{
    match a {
        Operand::Word(w) => word_interval(w, known),
        Operand::Const(c) => Interval { low: c, high: c },
    }
}

/// The operand's word, where it has no value.
pub fn unknown(a: Operand, known: &[Option<Interval>]) -> Option<u32>
    ensures word { result ≡ first_unknown (known_of known.now) (a ∷ []) }
    ensures fits { ConstFits a }
{
    match a {
        Operand::Word(w) => { if is_known(w, known) { None } else { Some(w) } }
        Operand::Const(_) => None,
    }
}

fn unknown_number(numbers: &[u32], known: &[Option<Interval>]) -> Option<u32>
    ensures { result ≡ first_unknown (known_of known.now) (map Word numbers.now) }
{
    for number in numbers {
        if !is_known(*number, known) {
            return Some(*number);
        }
    }
    None
}

fn unknown_of_two(a: Operand, b: Operand, known: &[Option<Interval>]) -> Option<u32>
    ensures word { result ≡ first_unknown (known_of known.now) (a ∷ b ∷ []) }
    ensures fits { IfNone result (AllConstFit (a ∷ b ∷ [])) }
{
    match unknown(a, known) {
        Some(w) => Some(w),
        None => unknown(b, known),
    }
}

fn unknown_of_three(a: Operand, b: Operand, c: Operand, known: &[Option<Interval>]) -> Option<u32>
    ensures word { result ≡ first_unknown (known_of known.now) (a ∷ b ∷ c ∷ []) }
    ensures fits { IfNone result (AllConstFit (a ∷ b ∷ c ∷ [])) }
{
    match unknown(a, known) {
        Some(w) => Some(w),
        None => unknown_of_two(b, c, known),
    }
}

/// The first word that an op reads and that has no value.
#[tactic(auto, using(crate::proofs::Operands::words_fit))]
fn unknown_of_op(op: &Op, known: &[Option<Interval>]) -> Option<u32>
    ensures word { result ≡ first_unknown (known_of known.now) (operands_of op.now) }
    ensures fits { IfNone result (AllConstFit (operands_of op.now)) }
{
    match op {
        Op::Set(_, a) => unknown(*a, known),
        Op::Two(_, _, a, b) => unknown_of_two(*a, *b, known),
        Op::Bit(_, a) => unknown(*a, known),
        Op::Pick(_, a, b, c) => unknown_of_three(*a, *b, *c, known),
        Op::Hash(_, _, _, numbers) => unknown_number(numbers.as_slice(), known),
    }
}

fn has_modulus(op: &Op) -> bool
    ensures test { result ≡ has_modulus op.now }
    ensures fits { ModulusFits op.now }
{
    match op {
        Op::Hash(_, _, modulus, _) => 0 < *modulus,
        _ => true,
    }
}

/// The first rule that an op breaks.
fn op_refusal(stage: u32, op: &Op, known: &[Option<Interval>]) -> Option<Refused>
    ensures rule { result ≡ op_refusal stage (known_of known.now) op.now }
    ensures fits { IfNone result (OpFits op.now) }
    ensures modulus { IfNone result (IsTrue (has_modulus op.now)) }
{
    if !has_modulus(op) {
        return Some(Refused::Shape { stage });
    }
    if let Some(word) = unknown_of_op(op, known) {
        return Some(Refused::Word { stage, word });
    }
    let word = to_of(op);
    if is_known(word, known) {
        Some(Refused::AssignedTwice { stage, word })
    } else {
        None
    }
}

fn two_interval(kind: Binary, a: Interval, b: Interval) -> Interval
    ensures { result ≡ two_interval kind a b }
{
    match kind {
        Binary::Add => Interval {
            low: a.low.saturating_add(b.low),
            high: a.high.saturating_add(b.high),
        },
        Binary::Sub => Interval {
            low: a.low.saturating_sub(b.high),
            high: a.high.saturating_sub(b.low),
        },
        Binary::Mask => {
            if 0 <= a.low && 0 <= b.low {
                Interval {
                    low: 0,
                    high: a.high.min(b.high),
                }
            } else {
                WHOLE
            }
        }
        _ => FLAG,
    }
}

fn hull(a: Interval, b: Interval) -> Interval
    ensures { result ≡ hull a b }
{
    Interval {
        low: a.low.min(b.low),
        high: a.high.max(b.high),
    }
}

/// What an op's word can be.
fn op_interval(op: &Op, known: &[Option<Interval>]) -> Interval
    requires { IsTrue (has_modulus op.now) }
    ensures { result ≡ op_interval (known_of known.now) op.now }
{
    match op {
        Op::Set(_, a) => interval_of(*a, known),
        Op::Two(_, kind, a, b) => two_interval(
            *kind,
            interval_of(*a, known),
            interval_of(*b, known),
        ),
        Op::Bit(_, _) => Interval {
            low: 0,
            high: 1 << 61,
        },
        Op::Pick(_, _, b, c) => hull(interval_of(*b, known), interval_of(*c, known)),
        Op::Hash(_, _, modulus, _) => Interval {
            low: 0,
            high: i64::from(*modulus) - 1,
        },
    }
}

/// Learns a word's interval.
pub fn learn(known: &mut [Option<Interval>], word: u32, interval: Interval)
    requires { word < length known.old }
    ensures { known_of known.new ≡ learn (known_of known.old) word interval }
{
    known[word as usize] = Some(interval);
}

/// The first rule that the ops break in order. Where there is none, what they assign is known then.
pub fn ops_refusal(stage: u32, ops: &[Op], known: &mut [Option<Interval>]) -> Option<Refused>
    requires { ops_end ops.now ≤ length known.old }
    ensures rule { result ≡ ops_refusal stage (known_of known.old) ops.now }
    ensures known { IfNone result (known_of known.new ≡ after_ops ops.now (known_of known.old)) }
    ensures fits { IfNone result (AllOpsFit ops.now) }
{
    for op in ops {
        if let Some(refused) = op_refusal(stage, op, known) {
            return Some(refused);
        }
        let interval = op_interval(op, known);
        learn(known, to_of(op), interval);
    }
    None
}
