ghost use Rattle.std.specs.Prelude.{◌≡◌, ◌++◌, ◌∷◌, [], IfOk};
ghost use Rattle.ch_asm.specs.Steps.{step, after_array, after_part, with_op, with_access};

use ch_asm_lines::Line;
use ch_cells::{Listed, Memory};
use ch_ir::{Access, Array, Op, Program, Stage};
use std::alloc::Global;

/// A program up to a stage.
#[derive(Drop)]
pub(crate) struct Begun {
    pub width: u32,
    pub arrays: Listed<Array>,
    pub stages: Listed<Stage>,
}

/// How far the lines of a program have come.
#[derive(Drop)]
pub(crate) enum Place {
    Start,
    Headed,
    /// Behind the width and these arrays.
    Arrays(u32, Listed<Array>),
    /// In a stage.
    InStage(Begun, Stage),
    /// Behind the verdict.
    Judged(Program),
    /// Behind the end.
    Ended(Program),
}

fn empty_stage(alloc: Global) -> Stage
    ensures { result ≡ record { ops = []; accesses = [] } }
{
    Stage {
        ops: Listed::new(alloc),
        accesses: Listed::new(alloc),
    }
}

fn with_stage(mut begun: Begun, stage: Stage) -> Result<Begun, Memory>
    ensures { IfOk result (λ with. with ≡ record begun { stages = begun.stages ++ stage ∷ [] }) }
{
    begun.stages.push(stage)?;
    Ok(begun)
}

/// In a stage no op stands behind an access.
fn with_op(begun: Begun, mut stage: Stage, op: Op) -> Result<Option<Place>, Memory>
    ensures { IfOk result (λ next. next ≡ with_op begun stage op) }
{
    if stage.accesses.len() != 0 {
        return Ok(None);
    }
    stage.ops.push(op)?;
    Ok(Some(Place::InStage(begun, stage)))
}

fn with_access(begun: Begun, mut stage: Stage, access: Access) -> Result<Option<Place>, Memory>
    ensures { IfOk result (λ next. next ≡ with_access begun stage access) }
{
    stage.accesses.push(access)?;
    Ok(Some(Place::InStage(begun, stage)))
}

/// The place behind a line that comes behind the width or an array.
fn after_array(
    alloc: Global,
    width: u32,
    mut arrays: Listed<Array>,
    line: Line,
) -> Result<Option<Place>, Memory>
    ensures { IfOk result (λ next. next ≡ after_array width arrays line) }
{
    let stages = Listed::new(alloc);
    match line {
        Line::Array(array) => {
            arrays.push(array)?;
            Ok(Some(Place::Arrays(width, arrays)))
        }
        Line::Stage => {
            let begun = Begun {
                width,
                arrays,
                stages,
            };
            Ok(Some(Place::InStage(begun, empty_stage(alloc))))
        }
        Line::Verdict(verdict) => Ok(Some(Place::Judged(Program {
            width,
            arrays,
            stages,
            verdict,
        }))),
        _ => Ok(None),
    }
}

/// The place behind a line that comes in a stage.
fn after_part(
    alloc: Global,
    begun: Begun,
    stage: Stage,
    line: Line,
) -> Result<Option<Place>, Memory>
    ensures { IfOk result (λ next. next ≡ after_part begun stage line) }
{
    match line {
        Line::Op(op) => with_op(begun, stage, op),
        Line::Access(access) => with_access(begun, stage, access),
        Line::Stage => {
            let begun = with_stage(begun, stage)?;
            Ok(Some(Place::InStage(begun, empty_stage(alloc))))
        }
        Line::Verdict(verdict) => {
            let begun = with_stage(begun, stage)?;
            Ok(Some(Place::Judged(Program {
                width: begun.width,
                arrays: begun.arrays,
                stages: begun.stages,
                verdict,
            })))
        }
        _ => Ok(None),
    }
}

/// The place behind one more line, where that may come.
pub(crate) fn step(alloc: Global, place: Place, line: Line) -> Result<Option<Place>, Memory>
    ensures { IfOk result (λ next. next ≡ step place line) }
{
    match place {
        Place::Start => match line {
            Line::Header => Ok(Some(Place::Headed)),
            _ => Ok(None),
        },
        Place::Headed => match line {
            Line::Width(width) => Ok(Some(Place::Arrays(width, Listed::new(alloc)))),
            _ => Ok(None),
        },
        Place::Arrays(width, arrays) => after_array(alloc, width, arrays, line),
        Place::InStage(begun, stage) => after_part(alloc, begun, stage, line),
        Place::Judged(program) => match line {
            Line::End => Ok(Some(Place::Ended(program))),
            _ => Ok(None),
        },
        Place::Ended(_) => Ok(None),
    }
}
