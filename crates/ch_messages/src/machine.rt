ghost use Rattle.std.specs.Prelude.{◌≡◌, ◌≢◌, IfOk, OnOk, string_bytes};
ghost use Rattle.ch_messages.specs.Machine.{accepted_line, limit_text, profile_line, program_line, refused_line, why_text};

use ch_cells::{Bytes, Memory};
use ch_ir::{LimitName, ProfileError, ProfileWhy, Refused, Sizes};
use std::alloc::Global;

/// Why a line is refused.
fn why_text(why: ProfileWhy) -> &'static str
    ensures { result.now ≡ why_text why }
{
    match why {
        ProfileWhy::NotASetting => "not a setting",
        ProfileWhy::UnknownName => "unknown name",
        ProfileWhy::Repeated => "repeated",
        ProfileWhy::BadNumber => "bad number",
        ProfileWhy::OutOfRange => "out of range",
    }
}

/// That a line of a profile is bad. Lines count from 1.
pub fn profile_line(alloc: Global, error: ProfileError) -> Result<Bytes, Memory>
    ensures { IfOk result (λ said. said ≡ profile_line error) }
{
    let ProfileError::Bad { line, why } = error;
    let why = why_text(why);
    let said = format!(in alloc; "input: profile line {line}: {why}\n")?;
    Ok(Bytes::from_vec(said.into_bytes()))
}

/// That the lines up to this one begin no program text. Lines count from 1.
pub fn program_line(alloc: Global, line: u32) -> Result<Bytes, Memory>
    ensures { IfOk result (λ said. said ≡ program_line line) }
{
    let said = format!(in alloc; "input: program line {line}\n")?;
    Ok(Bytes::from_vec(said.into_bytes()))
}

/// The name of a limit.
pub fn limit_text(which: LimitName) -> &'static str
    ensures { result.now ≡ limit_text which }
{
    match which {
        LimitName::Width => "width",
        LimitName::Cells => "cells",
        LimitName::Words => "words",
        LimitName::Stages => "stages",
        LimitName::Ops => "ops",
    }
}

fn exceeded_text(alloc: Global, which: LimitName, need: u64, have: u64) -> Result<String, Memory>
    ensures { IfOk result (λ text. string_bytes text ≡ refused_line (Refused.Limit which need have)) }
{
    let which = limit_text(which);
    Ok(format!(in alloc; "refused: {which} need {need} have {have}\n")?)
}

fn refused_text(alloc: Global, refused: Refused) -> Result<String, Memory>
    ensures text { IfOk result (λ text. string_bytes text ≡ refused_line refused) }
    ensures known { OnOk result (refused ≢ Refused.Memory) }
{
    match refused {
        Refused::Limit { which, need, have } => exceeded_text(alloc, which, need, have),
        Refused::Word { stage, word } => {
            Ok(format!(in alloc; "refused: stage {stage} word {word} unassigned\n")?)
        }
        Refused::AssignedTwice { stage, word } => {
            Ok(format!(in alloc; "refused: stage {stage} word {word} assigned twice\n")?)
        }
        Refused::TwoAccesses { stage } => {
            Ok(format!(in alloc; "refused: stage {stage} two accesses\n")?)
        }
        Refused::Shape { stage } => Ok(format!(in alloc; "refused: stage {stage} shape\n")?),
        Refused::IndexRange {
            stage,
            low,
            high,
            len,
        } => Ok(format!(in alloc; "refused: stage {stage} index {low} to {high} of {len}\n")?),
        Refused::Memory => Err(Memory),
    }
}

/// The limit or the rule that a program breaks. Want of memory has no line.
pub fn refused_line(alloc: Global, refused: Refused) -> Result<Bytes, Memory>
    ensures line { IfOk result (λ said. said ≡ refused_line refused) }
    ensures known { OnOk result (refused ≢ Refused.Memory) }
{
    let said = refused_text(alloc, refused)?;
    Ok(Bytes::from_vec(said.into_bytes()))
}

/// What an accepted program needs of each limit.
pub fn accepted_line(alloc: Global, sizes: Sizes) -> Result<Bytes, Memory>
    ensures { IfOk result (λ said. said ≡ accepted_line sizes) }
{
    let Sizes {
        width,
        cells,
        words,
        stages,
        ops,
    } = sizes;
    let said = format!(in alloc;
        "accepted width={width} cells={cells} words={words} stages={stages} ops={ops}\n"
    )?;
    Ok(Bytes::from_vec(said.into_bytes()))
}
