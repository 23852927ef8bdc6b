ghost use Rattle.std.specs.Prelude.{◌≡◌, Some, None, MatchOption};
ghost use Rattle.ch_asm_lines.specs.Numbers.{word_of, seed_of};
ghost use Rattle.ch_asm_lines.specs.Reading.{listed_word_of, operand_of, test_of, test_named, update_of, update_named, binary_of, binary_among, field_of};
ghost use Rattle.ch_asm_lines.specs.Spelling.{binary_text};

use crate::first_cut::cut;
use crate::number::{read_constant, read_seed, read_word};
use ch_ir::{Binary, Operand, Test, Update};

#[tactic(auto, unfolding(crate::specs::Reading::operand_of))]
pub(crate) fn read_operand(text: &[u8]) -> Option<Operand>
    ensures { result ≡ operand_of text.now }
{
    match text {
        [b'w', number @ ..] => match read_word(number) {
            Some(w) => Some(Operand::Word(w)),
            None => None,
        },
        [b'#', number @ ..] => match read_constant(number) {
            Some(c) => Some(Operand::Const(c)),
            None => None,
        },
        _ => None,
    }
}

/// The number of a word, as it stands in a list.
#[tactic(auto, unfolding(crate::specs::Reading::listed_word_of))]
pub(crate) fn read_listed_word(text: &[u8]) -> Option<u32>
    ensures { result ≡ listed_word_of text.now }
{
    match text {
        [b'w', number @ ..] => read_word(number),
        _ => None,
    }
}

fn test_named(name: &[u8], n: u32) -> Option<Test>
    ensures { result ≡ test_named name.now n }
{
    if name == b"keyeq".as_slice() {
        Some(Test::KeyEq(n))
    } else if name == b"keyorfree".as_slice() {
        Some(Test::KeyEqOrFree(n))
    } else if name == b"less".as_slice() {
        Some(Test::Less(n))
    } else {
        None
    }
}

#[tactic(auto, unfolding(crate::specs::Reading::test_of))]
pub(crate) fn read_test(text: &[u8]) -> Option<Test>
    ensures { result ≡ test_of text.now }
{
    if text == b"always".as_slice() {
        return Some(Test::Always);
    }
    let (name, number) = cut(b':', text)?;
    let n = read_word(number)?;
    test_named(name, n)
}

fn update_named(name: &[u8], a: Operand) -> Option<Update>
    ensures { result ≡ update_named name.now a }
{
    if name == b"put".as_slice() {
        Some(Update::Put(a))
    } else if name == b"addsat".as_slice() {
        Some(Update::AddSat(a))
    } else if name == b"min".as_slice() {
        Some(Update::Min(a))
    } else if name == b"max".as_slice() {
        Some(Update::Max(a))
    } else if name == b"or".as_slice() {
        Some(Update::Or(a))
    } else {
        None
    }
}

#[tactic(auto, unfolding(crate::specs::Reading::update_of))]
pub(crate) fn read_update(text: &[u8]) -> Option<Update>
    ensures { result ≡ update_of text.now }
{
    if text == b"keep".as_slice() {
        return Some(Update::Keep);
    }
    let (name, operand) = cut(b':', text)?;
    let a = read_operand(operand)?;
    update_named(name, a)
}

const BINARIES: [Binary; 9] = [
    Binary::Add,
    Binary::Sub,
    Binary::Lt,
    Binary::Le,
    Binary::Eq,
    Binary::Ne,
    Binary::And,
    Binary::Or,
    Binary::Mask,
];

/// The name of an op of two operands.
pub(crate) fn binary_name(binary: Binary) -> &'static [u8]
    ensures { result.now ≡ binary_text binary }
{
    match binary {
        Binary::Add => b"add",
        Binary::Sub => b"sub",
        Binary::Lt => b"lt",
        Binary::Le => b"le",
        Binary::Eq => b"eq",
        Binary::Ne => b"ne",
        Binary::And => b"and",
        Binary::Or => b"or",
        Binary::Mask => b"mask",
    }
}

/// The first of these that has this name.
fn binary_among(binaries: &[Binary], name: &[u8]) -> Option<Binary>
    ensures { result ≡ binary_among binaries.now name.now }
{
    for binary in binaries {
        if binary_name(*binary) == name {
            return Some(*binary);
        }
    }
    None
}

#[tactic(auto, unfolding(crate::specs::Reading::binary_of))]
pub(crate) fn read_binary(name: &[u8]) -> Option<Binary>
    ensures { result ≡ binary_of name.now }
{
    binary_among(&BINARIES, name)
}

#[tactic(auto, unfolding(crate::specs::Reading::field_of))]
pub(crate) fn word_field(text: &[u8]) -> Option<(u32, &[u8])>
    ensures { MatchOption result (field_of word_of text.now ≡ None) (λ field. field_of word_of text.now ≡ Some (field.0, field.1.now)) }
{
    let (word, rest) = cut(b' ', text)?;
    Some((read_word(word)?, rest))
}

#[tactic(auto, unfolding(crate::specs::Reading::field_of))]
pub(crate) fn seed_field(text: &[u8]) -> Option<(u64, &[u8])>
    ensures { MatchOption result (field_of seed_of text.now ≡ None) (λ field. field_of seed_of text.now ≡ Some (field.0, field.1.now)) }
{
    let (seed, rest) = cut(b' ', text)?;
    Some((read_seed(seed)?, rest))
}

#[tactic(auto, unfolding(crate::specs::Reading::field_of))]
pub(crate) fn operand_field(text: &[u8]) -> Option<(Operand, &[u8])>
    ensures { MatchOption result (field_of operand_of text.now ≡ None) (λ field. field_of operand_of text.now ≡ Some (field.0, field.1.now)) }
{
    let (operand, rest) = cut(b' ', text)?;
    Some((read_operand(operand)?, rest))
}

#[tactic(auto, unfolding(crate::specs::Reading::field_of))]
pub(crate) fn test_field(text: &[u8]) -> Option<(Test, &[u8])>
    ensures { MatchOption result (field_of test_of text.now ≡ None) (λ field. field_of test_of text.now ≡ Some (field.0, field.1.now)) }
{
    let (test, rest) = cut(b' ', text)?;
    Some((read_test(test)?, rest))
}
