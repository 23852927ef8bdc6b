ghost use Rattle.std.specs.Prelude.{◌≡◌, IfOk, IfErr, List, ℕ};
ghost use Rattle.ch_ir.specs.declared.program.Program.{Program};
ghost use Rattle.ch_asm.specs.Text.{program_text, IsProgram};
ghost use Rattle.ch_asm.specs.Refusal.{Refuses, Only};
ghost use Rattle.ch_asm.specs.Steps.{step_text, Steps};

use crate::error::AsmError;
use crate::place::{Place, step};
use ch_asm_lines::{LineError, cut, read_line};
use ch_ir::Program;
use std::alloc::Global;

/// The place behind the line of this text and number.
#[tactic(auto, unfolding(crate::specs::Steps::step_text))]
fn next_place(alloc: Global, place: Place, text: &[u8], line: u32) -> Result<Place, AsmError>
    ensures { Steps (step_text place text.now) line result }
{
    let said = match read_line(alloc, text) {
        Ok(said) => said,
        Err(LineError::Bad) => return Err(AsmError::Line { line }),
        Err(LineError::Memory) => return Err(AsmError::Memory),
    };
    match step(alloc, place, said)? {
        Some(next) => Ok(next),
        None => Err(AsmError::Line { line }),
    }
}

/// Reads a program text.
pub fn read_program(alloc: Global, text: &[u8]) -> Result<Program, AsmError>
    // What is read is the program's text.
    ensures read { IfOk result (λ program. IsProgram program × (text.now ≡ program_text program)) }
    // What is refused is no program's text, from the named line on.
    ensures refused { IfErr result (λ e. Refuses text.now e) }
    // The text of each program is read as it, unless memory runs out.
    ensures only { (program : Program) → IsProgram program → text.now ≡ program_text program → Only program result }
{
    let mut place = Place::Start;
    let mut rest = text;
    let mut line: u32 = 1;
    while let Some((first, more)) = cut(b'\n', rest) {
        place = next_place(alloc, place, first, line)?;
        rest = more;
        line = line.saturating_add(1);
    }
    if !rest.is_empty() {
        return Err(AsmError::Line { line });
    }
    match place {
        Place::Ended(program) => Ok(program),
        _ => Err(AsmError::Line { line }),
    }
}
