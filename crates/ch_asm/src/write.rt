ghost use Rattle.std.specs.Prelude.{◌≡◌, ◌++◌, ◌∷◌, OnOk, IfOk, map};
ghost use Rattle.std.specs.List.{flat_map, AllByRecursion};
ghost use Rattle.ch_asm_lines.specs.Range.{IsArray, IsOp, IsAccess};
ghost use Rattle.ch_asm_lines.specs.declared.line.Line.TheVariants as line;
ghost use Rattle.ch_asm.specs.Text.{spelled, stage_lines, program_text, IsStage, IsProgram};

use ch_asm_lines::{LineRef, push_line};
use ch_cells::{Bytes, Memory};
use ch_ir::{Access, Array, Op, Program, Stage};
use std::alloc::Global;

fn push_arrays(text: &mut Vec<u8>, arrays: &[Array]) -> Result<(), Memory>
    ensures text { OnOk result (text.new.items ≡ text.old.items ++ spelled (map line.Array arrays.now)) }
    ensures fits { OnOk result (AllByRecursion IsArray arrays.now) }
{
    for array in arrays {
        push_line(text, LineRef::Array(*array))?;
    }
    Ok(())
}

fn push_ops(text: &mut Vec<u8>, ops: &[Op]) -> Result<(), Memory>
    ensures text { OnOk result (text.new.items ≡ text.old.items ++ spelled (map line.Op ops.now)) }
    ensures fits { OnOk result (AllByRecursion IsOp ops.now) }
{
    for op in ops {
        push_line(text, LineRef::Op(op))?;
    }
    Ok(())
}

fn push_accesses(text: &mut Vec<u8>, accesses: &[Access]) -> Result<(), Memory>
    ensures text { OnOk result (text.new.items ≡ text.old.items ++ spelled (map line.Access accesses.now)) }
    ensures fits { OnOk result (AllByRecursion IsAccess accesses.now) }
{
    for access in accesses {
        push_line(text, LineRef::Access(access))?;
    }
    Ok(())
}

fn push_stage(text: &mut Vec<u8>, stage: &Stage) -> Result<(), Memory>
    ensures text { OnOk result (text.new.items ≡ text.old.items ++ spelled (stage_lines stage.now)) }
    ensures fits { OnOk result (IsStage stage.now) }
{
    push_line(text, LineRef::Stage)?;
    push_ops(text, stage.ops.as_slice())?;
    push_accesses(text, stage.accesses.as_slice())?;
    Ok(())
}

fn push_stages(text: &mut Vec<u8>, stages: &[Stage]) -> Result<(), Memory>
    ensures text { OnOk result (text.new.items ≡ text.old.items ++ spelled (flat_map stage_lines stages.now)) }
    ensures fits { OnOk result (AllByRecursion IsStage stages.now) }
{
    for stage in stages {
        push_stage(text, stage)?;
    }
    Ok(())
}

/// The text of a program. Its numbers are in the ranges of their types, so that it is read again.
pub fn write_program(alloc: Global, program: &Program) -> Result<Bytes, Memory>
    ensures text { IfOk result (λ text. text ≡ program_text program.now) }
    ensures fits { OnOk result (IsProgram program.now) }
{
    let mut text = Vec::new(alloc);
    push_line(&mut text, LineRef::Header)?;
    push_line(&mut text, LineRef::Width(program.width))?;
    push_arrays(&mut text, program.arrays.as_slice())?;
    push_stages(&mut text, program.stages.as_slice())?;
    push_line(&mut text, LineRef::Verdict(program.verdict))?;
    push_line(&mut text, LineRef::End)?;
    Ok(Bytes::from_vec(text))
}
