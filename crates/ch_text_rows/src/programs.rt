//! Program texts, and their lines.
ghost use Rattle.std.specs.Prelude.{◌≡◌, IfOk};

use ch_asm::{AsmError, read_program, write_program};
use ch_asm_lines::{Line, LineRef, cut, push_line, read_line};
use ch_cells::Bytes;
use ch_ir::Program;
use std::alloc::Global;
use std::str;

/// What is written is read as the same program: this stands on the contracts of the two calls alone.
fn read_again(alloc: Global, program: &Program) -> Result<Program, AsmError>
    ensures { IfOk result (λ again. again ≡ program.now) }
{
    let text = write_program(alloc, program)?;
    read_program(alloc, text.as_slice())
}

/// The text of the program that the text is, read twice.
fn written(alloc: Global, text: &[u8]) -> Result<Bytes, AsmError> {
    let program = read_program(alloc, text)?;
    let again = read_again(alloc, &program)?;
    Ok(write_program(alloc, &again)?)
}

/// Whether a text is written again as it stands, or why it is no program's.
pub(crate) fn program(alloc: Global, text: &[u8]) -> anyhow::Result<String> {
    match written(alloc, text) {
        Ok(again) if again.as_slice() == text => Ok(String::from_str(alloc, "the same")?),
        Ok(again) => Ok(format!(in alloc; "{:?}", str::from_utf8(again.as_slice())?)?),
        Err(error) => Ok(format!(in alloc; "{error:?}")?),
    }
}

/// The same of a text whose lines from the fourth on are these, and then two more.
pub(crate) fn stage(alloc: Global, lines: &[u8]) -> anyhow::Result<String> {
    let mut text = Vec::from_slice(alloc, b"cheetah program 1\nwidth 3\nstage\n")?;
    text.extend_from_slice(lines)?;
    text.extend_from_slice(b"\nverdict 3\nend\n")?;
    program(alloc, text.as_slice())
}

/// The program that a text is.
pub(crate) fn tree(alloc: Global, text: &[u8]) -> anyhow::Result<String> {
    let program = read_program(alloc, text)?;
    Ok(format!(in alloc; "{program:?}")?)
}

/// An op's line as it is written again, or why it is none.
pub(crate) fn op_line(alloc: Global, line: &[u8]) -> anyhow::Result<String> {
    match read_line(alloc, line) {
        Ok(Line::Op(op)) => {
            let mut text = Vec::new(alloc);
            push_line(&mut text, LineRef::Op(&op))?;
            Ok(format!(in alloc; "{:?}", str::from_utf8(text.as_slice())?)?)
        }
        Ok(other) => {
            drop(other);
            Ok(String::from_str(alloc, "another line")?)
        }
        Err(error) => Ok(format!(in alloc; "{error:?}")?),
    }
}

/// A text behind its first byte, cut where that byte stands next.
pub(crate) fn cut_at(alloc: Global, text: &[u8]) -> anyhow::Result<String> {
    if let Some((byte, text)) = text.split_first()
        && let Some((first, rest)) = cut(*byte, text)
    {
        let (first, rest) = (str::from_utf8(first)?, str::from_utf8(rest)?);
        return Ok(format!(in alloc; "{first:?} {rest:?}")?);
    }
    Ok(String::from_str(alloc, "none")?)
}
