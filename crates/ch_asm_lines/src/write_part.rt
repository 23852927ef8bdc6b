//! Each function writes at the end of the text.
ghost use Rattle.std.specs.Prelude.{◌≡◌, ◌++◌, ◌∷◌, [], ◌<◌, ◌^◌, OnOk, FitsSigned};
ghost use Rattle.std.specs.Fmt.{decimal, signed_decimal};
ghost use Rattle.std.specs.Int.{w64};
ghost use Rattle.ch_asm_lines.specs.Spelling.{word_text, operand_text, test_text, update_text};
ghost use Rattle.ch_asm_lines.specs.Range.{IsWord, IsOperand, IsTest, IsUpdate};

use ch_cells::Memory;
use ch_ir::{Operand, Test, Update};
use itoa::Buffer;

pub(crate) fn push_bytes(text: &mut Vec<u8>, bytes: &[u8]) -> Result<(), Memory>
    ensures { OnOk result (text.new.items ≡ text.old.items ++ bytes.now) }
{
    text.extend_from_slice(bytes)?;
    Ok(())
}

pub(crate) fn push_number(text: &mut Vec<u8>, n: u64) -> Result<(), Memory>
    ensures { OnOk result (text.new.items ≡ text.old.items ++ decimal n) }
{
    let mut digits = Buffer::new();
    push_bytes(text, digits.format(n).as_bytes())
}

fn push_constant(text: &mut Vec<u8>, c: i64) -> Result<(), Memory>
    ensures { OnOk result (text.new.items ≡ text.old.items ++ signed_decimal c) }
{
    let mut digits = Buffer::new();
    push_bytes(text, digits.format(c).as_bytes())
}

/// Writes `w` and the number of a word.
pub(crate) fn push_word(text: &mut Vec<u8>, w: u32) -> Result<(), Memory>
    ensures text { OnOk result (text.new.items ≡ text.old.items ++ word_text w) }
    ensures fits { IsWord w }
{
    text.push(b'w')?;
    push_number(text, u64::from(w))
}

pub(crate) fn push_operand(text: &mut Vec<u8>, a: Operand) -> Result<(), Memory>
    ensures text { OnOk result (text.new.items ≡ text.old.items ++ operand_text a) }
    ensures fits { OnOk result (IsOperand a) }
{
    match a {
        Operand::Word(w) => push_word(text, w),
        Operand::Const(c) => {
            text.push(b'#')?;
            push_constant(text, c)
        }
    }
}

/// Writes a name, `:` and a number.
fn push_named_number(text: &mut Vec<u8>, name: &[u8], n: u32) -> Result<(), Memory>
    ensures { OnOk result (text.new.items ≡ text.old.items ++ name.now ++ 58 ∷ decimal n) }
{
    push_bytes(text, name)?;
    text.push(b':')?;
    push_number(text, u64::from(n))
}

pub(crate) fn push_test(text: &mut Vec<u8>, test: Test) -> Result<(), Memory>
    ensures text { OnOk result (text.new.items ≡ text.old.items ++ test_text test) }
    ensures fits { OnOk result (IsTest test) }
{
    match test {
        Test::Always => push_bytes(text, b"always"),
        Test::KeyEq(n) => push_named_number(text, b"keyeq", n),
        Test::KeyEqOrFree(n) => push_named_number(text, b"keyorfree", n),
        Test::Less(c) => push_named_number(text, b"less", c),
    }
}

/// Writes a name, `:` and an operand.
fn push_named_operand(text: &mut Vec<u8>, name: &[u8], a: Operand) -> Result<(), Memory>
    ensures text { OnOk result (text.new.items ≡ text.old.items ++ name.now ++ 58 ∷ operand_text a) }
    ensures fits { OnOk result (IsOperand a) }
{
    push_bytes(text, name)?;
    text.push(b':')?;
    push_operand(text, a)
}

pub(crate) fn push_update(text: &mut Vec<u8>, update: Update) -> Result<(), Memory>
    ensures text { OnOk result (text.new.items ≡ text.old.items ++ update_text update) }
    ensures fits { OnOk result (IsUpdate update) }
{
    match update {
        Update::Keep => push_bytes(text, b"keep"),
        Update::Put(a) => push_named_operand(text, b"put", a),
        Update::AddSat(a) => push_named_operand(text, b"addsat", a),
        Update::Min(a) => push_named_operand(text, b"min", a),
        Update::Max(a) => push_named_operand(text, b"max", a),
        Update::Or(a) => push_named_operand(text, b"or", a),
    }
}

/// Writes a number of 32 bits and a space.
pub(crate) fn push_number_field(text: &mut Vec<u8>, n: u32) -> Result<(), Memory>
    ensures text { OnOk result (text.new.items ≡ text.old.items ++ decimal n ++ 32 ∷ []) }
    ensures fits { IsWord n }
{
    push_number(text, u64::from(n))?;
    text.push(b' ')?;
    Ok(())
}

/// Writes an operand and a space.
pub(crate) fn push_operand_field(text: &mut Vec<u8>, a: Operand) -> Result<(), Memory>
    ensures text { OnOk result (text.new.items ≡ text.old.items ++ operand_text a ++ 32 ∷ []) }
    ensures fits { OnOk result (IsOperand a) }
{
    push_operand(text, a)?;
    text.push(b' ')?;
    Ok(())
}
