ghost use Rattle.std.specs.Prelude.{◌≡◌, Some, None, MatchOption};
ghost use Rattle.ch_asm_lines.specs.Reading.{Gives, pick_of, hash_of, two_of, op_named, op_of, asked_of, access_with, access_of, array_of, line_named, line_of};

use crate::first_cut::cut;
use crate::line::{Line, LineError};
use crate::list::{list_field, read_list};
use crate::number::read_word;
use crate::part::{operand_field, read_binary, read_operand, seed_field, test_field, word_field};
use ch_ir::{Access, Array, Op, Operand, Test};
use std::alloc::Global;

#[tactic(auto, unfolding(crate::specs::Reading::pick_of))]
fn read_pick(to: u32, text: &[u8]) -> Option<Op>
    ensures { result ≡ pick_of to text.now }
{
    let (asked, rest) = operand_field(text)?;
    let (yes, rest) = operand_field(rest)?;
    let no = read_operand(rest)?;
    Some(Op::Pick(to, asked, yes, no))
}

#[tactic(auto, unfolding(crate::specs::Reading::hash_of))]
fn read_hash(alloc: Global, to: u32, text: &[u8]) -> Result<Op, LineError>
    ensures { Gives (hash_of to text.now) result }
{
    let (seed, rest) = seed_field(text).ok_or(LineError::Bad)?;
    let (modulus, rest) = word_field(rest).ok_or(LineError::Bad)?;
    let words = read_list(alloc, rest)?;
    Ok(Op::Hash(to, seed, modulus, words))
}

#[tactic(auto, unfolding(crate::specs::Reading::two_of))]
fn read_two(to: u32, name: &[u8], text: &[u8]) -> Option<Op>
    ensures { result ≡ two_of to name.now text.now }
{
    let binary = read_binary(name)?;
    let (a, rest) = operand_field(text)?;
    let b = read_operand(rest)?;
    Some(Op::Two(to, binary, a, b))
}

#[tactic(auto, unfolding(crate::specs::Reading::op_named))]
fn op_named(alloc: Global, to: u32, name: &[u8], text: &[u8]) -> Result<Op, LineError>
    ensures { Gives (op_named to name.now text.now) result }
{
    if name == b"set".as_slice() {
        let a = read_operand(text).ok_or(LineError::Bad)?;
        Ok(Op::Set(to, a))
    } else if name == b"bit".as_slice() {
        let a = read_operand(text).ok_or(LineError::Bad)?;
        Ok(Op::Bit(to, a))
    } else if name == b"pick".as_slice() {
        read_pick(to, text).ok_or(LineError::Bad)
    } else if name == b"hash".as_slice() {
        read_hash(alloc, to, text)
    } else {
        read_two(to, name, text).ok_or(LineError::Bad)
    }
}

#[tactic(auto, unfolding(crate::specs::Reading::op_of))]
fn read_op(alloc: Global, text: &[u8]) -> Result<Op, LineError>
    ensures { Gives (op_of text.now) result }
{
    let (to, rest) = word_field(text).ok_or(LineError::Bad)?;
    let (name, rest) = cut(b' ', rest).ok_or(LineError::Bad)?;
    op_named(alloc, to, name, rest)
}

/// The entry that an access takes, and what it asks of it.
#[derive(Clone, Copy)]
pub(crate) struct Asked {
    pub array: u32,
    pub index: Operand,
    pub guard: Operand,
    pub test: Test,
}

#[tactic(auto, unfolding(crate::specs::Reading::asked_of))]
fn read_asked(text: &[u8]) -> Option<(Asked, &[u8])>
    ensures { MatchOption result (asked_of text.now ≡ None) (λ asked. asked_of text.now ≡ Some (asked.0, asked.1.now)) }
{
    let (array, rest) = word_field(text)?;
    let (index, rest) = operand_field(rest)?;
    let (guard, rest) = operand_field(rest)?;
    let (test, rest) = test_field(rest)?;
    Some((
        Asked {
            array,
            index,
            guard,
            test,
        },
        rest,
    ))
}

#[tactic(auto, unfolding(crate::specs::Reading::access_with))]
fn access_with(alloc: Global, asked: Asked, text: &[u8]) -> Result<Access, LineError>
    ensures { Gives (access_with asked text.now) result }
{
    let (key, rest) = list_field(alloc, text)?;
    let (yes, rest) = list_field(alloc, rest)?;
    let (no, rest) = list_field(alloc, rest)?;
    let (old, rest) = word_field(rest).ok_or(LineError::Bad)?;
    let hit = read_word(rest).ok_or(LineError::Bad)?;
    Ok(Access {
        array: asked.array,
        index: asked.index,
        guard: asked.guard,
        test: asked.test,
        key,
        yes,
        no,
        old,
        hit,
    })
}

#[tactic(auto, unfolding(crate::specs::Reading::access_of))]
fn read_access(alloc: Global, text: &[u8]) -> Result<Access, LineError>
    ensures { Gives (access_of text.now) result }
{
    let (asked, rest) = read_asked(text).ok_or(LineError::Bad)?;
    access_with(alloc, asked, rest)
}

#[tactic(auto, unfolding(crate::specs::Reading::array_of))]
fn read_array(text: &[u8]) -> Option<Array>
    ensures { result ≡ array_of text.now }
{
    let (entries, rest) = word_field(text)?;
    let cells = read_word(rest)?;
    Some(Array { entries, cells })
}

#[tactic(auto, unfolding(crate::specs::Reading::line_named))]
fn line_named(alloc: Global, name: &[u8], text: &[u8]) -> Result<Line, LineError>
    ensures { Gives (line_named name.now text.now) result }
{
    if name == b"width".as_slice() {
        let width = read_word(text).ok_or(LineError::Bad)?;
        Ok(Line::Width(width))
    } else if name == b"array".as_slice() {
        let array = read_array(text).ok_or(LineError::Bad)?;
        Ok(Line::Array(array))
    } else if name == b"op".as_slice() {
        let op = read_op(alloc, text)?;
        Ok(Line::Op(op))
    } else if name == b"access".as_slice() {
        let access = read_access(alloc, text)?;
        Ok(Line::Access(access))
    } else if name == b"verdict".as_slice() {
        let word = read_word(text).ok_or(LineError::Bad)?;
        Ok(Line::Verdict(word))
    } else {
        Err(LineError::Bad)
    }
}

/// Reads a line, which comes without its line feed.
#[tactic(auto, unfolding(crate::specs::Reading::line_of))]
pub fn read_line(alloc: Global, text: &[u8]) -> Result<Line, LineError>
    ensures { Gives (line_of text.now) result }
{
    if text == b"cheetah program 1".as_slice() {
        return Ok(Line::Header);
    }
    if text == b"stage".as_slice() {
        return Ok(Line::Stage);
    }
    if text == b"end".as_slice() {
        return Ok(Line::End);
    }
    let (name, rest) = cut(b' ', text).ok_or(LineError::Bad)?;
    line_named(alloc, name, rest)
}
