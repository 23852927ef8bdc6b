//! Each function writes at the end of the text.
ghost use Rattle.std.specs.Prelude.{◌≡◌, ◌++◌, ◌∷◌, [], OnOk};
ghost use Rattle.std.specs.List.{join_with_byte, AllByRecursion};
ghost use Rattle.std.specs.Fmt.{decimal};
ghost use Rattle.ch_asm_lines.specs.Spelling.{operand_text, test_text, operands_text, updates_text, op_fields, access_fields, array_fields, line_text, ended};
ghost use Rattle.ch_asm_lines.specs.Range.{IsWord, IsOp, IsAccess, IsArray, IsLine, IsOperand, IsTest, IsUpdate};
ghost use Rattle.ch_asm_lines.specs.Lent.{lent_line};

use crate::list::push_list;
use crate::part::binary_name;
use crate::write_part::{
    push_bytes, push_number, push_number_field, push_operand, push_operand_field, push_test,
};
use ch_cells::Memory;
use ch_ir::{Access, Array, Op};

/// A line that is lent.
#[derive(Clone, Copy)]
pub enum LineRef<'a> {
    Header,
    Width(u32),
    Array(Array),
    Stage,
    Op(&'a Op),
    Access(&'a Access),
    Verdict(u32),
    End,
}

/// Writes the word that an op assigns, its name, and a space.
fn push_op_name(text: &mut Vec<u8>, to: u32, name: &[u8]) -> Result<(), Memory>
    ensures text { OnOk result (text.new.items ≡ text.old.items ++ decimal to ++ 32 ∷ (name.now ++ 32 ∷ [])) }
    ensures fits { IsWord to }
{
    push_number_field(text, to)?;
    push_bytes(text, name)?;
    text.push(b' ')?;
    Ok(())
}

fn push_op(text: &mut Vec<u8>, op: &Op) -> Result<(), Memory>
    ensures text { OnOk result (text.new.items ≡ text.old.items ++ join_with_byte 32 (op_fields op.now)) }
    ensures fits { OnOk result (IsOp op.now) }
{
    match op {
        Op::Set(to, a) => {
            push_op_name(text, *to, b"set")?;
            push_operand(text, *a)
        }
        Op::Two(to, binary, a, b) => {
            push_op_name(text, *to, binary_name(*binary))?;
            push_operand_field(text, *a)?;
            push_operand(text, *b)
        }
        Op::Bit(to, a) => {
            push_op_name(text, *to, b"bit")?;
            push_operand(text, *a)
        }
        Op::Pick(to, asked, yes, no) => {
            push_op_name(text, *to, b"pick")?;
            push_operand_field(text, *asked)?;
            push_operand_field(text, *yes)?;
            push_operand(text, *no)
        }
        Op::Hash(to, seed, modulus, words) => {
            push_op_name(text, *to, b"hash")?;
            push_number(text, *seed)?;
            text.push(b' ')?;
            push_number_field(text, *modulus)?;
            push_list(text, words.as_slice())
        }
    }
}

/// Writes the first four fields of an access, each with a space behind it.
fn push_asked(text: &mut Vec<u8>, access: &Access) -> Result<(), Memory>
    ensures text { OnOk result (text.new.items ≡ text.old.items ++ decimal access.now.array ++ 32 ∷ (operand_text access.now.index
        ++ 32 ∷ (operand_text access.now.guard ++ 32 ∷ (test_text access.now.test ++ 32 ∷ [])))) }
    ensures array { OnOk result (IsWord access.now.array) }
    ensures index { OnOk result (IsOperand access.now.index) }
    ensures guard { OnOk result (IsOperand access.now.guard) }
    ensures test { OnOk result (IsTest access.now.test) }
{
    push_number_field(text, access.array)?;
    push_operand_field(text, access.index)?;
    push_operand_field(text, access.guard)?;
    push_test(text, access.test)?;
    text.push(b' ')?;
    Ok(())
}

/// Writes the lists of an access, each with a space behind it.
fn push_lists(text: &mut Vec<u8>, access: &Access) -> Result<(), Memory>
    ensures text { OnOk result (text.new.items ≡ text.old.items ++ operands_text access.now.key ++ 32 ∷ (updates_text access.now.yes
        ++ 32 ∷ (updates_text access.now.no ++ 32 ∷ []))) }
    ensures key { OnOk result (AllByRecursion IsOperand access.now.key) }
    ensures yes { OnOk result (AllByRecursion IsUpdate access.now.yes) }
    ensures no { OnOk result (AllByRecursion IsUpdate access.now.no) }
{
    push_list(text, access.key.as_slice())?;
    text.push(b' ')?;
    push_list(text, access.yes.as_slice())?;
    text.push(b' ')?;
    push_list(text, access.no.as_slice())?;
    text.push(b' ')?;
    Ok(())
}

fn push_access(text: &mut Vec<u8>, access: &Access) -> Result<(), Memory>
    ensures text { OnOk result (text.new.items ≡ text.old.items ++ join_with_byte 32 (access_fields access.now)) }
    ensures fits { OnOk result (IsAccess access.now) }
{
    push_asked(text, access)?;
    push_lists(text, access)?;
    push_number_field(text, access.old)?;
    push_number(text, u64::from(access.hit))?;
    Ok(())
}

fn push_array(text: &mut Vec<u8>, array: Array) -> Result<(), Memory>
    ensures text { OnOk result (text.new.items ≡ text.old.items ++ join_with_byte 32 (array_fields array)) }
    ensures fits { IsArray array }
{
    push_number_field(text, array.entries)?;
    push_number(text, u64::from(array.cells))
}

/// Writes a line without its line feed.
#[tactic(auto, unfolding(crate::specs::Spelling::line_text))]
fn push_fields(text: &mut Vec<u8>, line: LineRef<'_>) -> Result<(), Memory>
    ensures text { OnOk result (text.new.items ≡ text.old.items ++ line_text (lent_line line.entry)) }
    ensures fits { OnOk result (IsLine (lent_line line.entry)) }
{
    match line {
        LineRef::Header => push_bytes(text, b"cheetah program 1"),
        LineRef::Width(w) => {
            push_bytes(text, b"width ")?;
            push_number(text, u64::from(w))
        }
        LineRef::Array(array) => {
            push_bytes(text, b"array ")?;
            push_array(text, array)
        }
        LineRef::Stage => push_bytes(text, b"stage"),
        LineRef::Op(op) => {
            push_bytes(text, b"op ")?;
            push_op(text, op)
        }
        LineRef::Access(access) => {
            push_bytes(text, b"access ")?;
            push_access(text, access)
        }
        LineRef::Verdict(w) => {
            push_bytes(text, b"verdict ")?;
            push_number(text, u64::from(w))
        }
        LineRef::End => push_bytes(text, b"end"),
    }
}

/// Writes a line with its line feed at the end of the text.
pub fn push_line(text: &mut Vec<u8>, line: LineRef<'_>) -> Result<(), Memory>
    ensures text { OnOk result (text.new.items ≡ text.old.items ++ ended (line_text (lent_line line.entry))) }
    ensures fits { OnOk result (IsLine (lent_line line.entry)) }
{
    push_fields(text, line)?;
    text.push(b'\n')?;
    Ok(())
}
