ghost use Rattle.std.specs.Prelude.{◌≡◌, ◌+◌, ◌<◌, ◌^◌, List, [], ◌∷◌, replicate, OnOk, IfOk};
ghost use Rattle.op_moves.specs.Moves.{Move, Compute, Reach, staged};
ghost use Rattle.op_moves.specs.Built.{stages_after, HasMade};
ghost use Rattle.op_moves.specs.Sheets.{cell_access};

use ch_cells::{Listed, Memory};
use ch_ir::{Access, Array, Op, Operand, Stage, Test, Update};
use std::alloc::Global;

/// A program as it grows: the stages that have ended, and the ops of the next one.
#[derive(Drop)]
pub struct Builder {
    pub stages: Listed<Stage>,
    pub before: Listed<Op>,
}

impl Builder {
    pub fn new(alloc: Global) -> Builder
        ensures { (rest : List Move) → stages_after result rest ≡ staged [] rest }
    {
        Builder {
            stages: Listed::new(alloc),
            before: Listed::new(alloc),
        }
    }

    /// One more op.
    pub fn compute(&mut self, op: Op) -> Result<(), Memory>
        ensures { OnOk result (HasMade (Compute op ∷ []) self.old self.new) }
    {
        self.before.push(op)
    }

    /// An access, which ends the stage.
    pub fn reach(&mut self, alloc: Global, access: Access) -> Result<(), Memory>
        ensures { OnOk result (HasMade (Reach access ∷ []) self.old self.new) }
    {
        let mut accesses = Listed::new(alloc);
        accesses.push(access)?;
        let ops = std::mem::replace(&mut self.before, Listed::new(alloc));
        self.stages.push(Stage { ops, accesses })
    }

    /// The stages of the moves that were made.
    pub fn finish(self, alloc: Global) -> Result<Listed<Stage>, Memory>
        ensures { IfOk result (λ stages. stages ≡ stages_after self []) }
    {
        let Builder { mut stages, before } = self;
        let accesses = Listed::new(alloc);
        stages.push(Stage {
            ops: before,
            accesses,
        })?;
        Ok(stages)
    }
}

/// An access that always updates the one cell of an entry. The old cell goes to the word `old`, and the next one is hit.
pub fn always(
    alloc: Global,
    array: u32,
    index: u32,
    guard: u32,
    update: Update,
    old: u32,
) -> Result<Access, Memory>
    requires { old + 1 < 2 ^ 32 }
    ensures { IfOk result (λ access. access ≡ cell_access array index guard update old) }
{
    let yes = Listed::from_vec(Vec::from_array(alloc, [update])?);
    let no = Listed::from_vec(Vec::from_array(alloc, [Update::Keep])?);
    Ok(Access {
        array,
        index: Operand::Word(index),
        guard: Operand::Word(guard),
        test: Test::Always,
        key: Listed::new(alloc),
        yes,
        no,
        old,
        hit: old + 1,
    })
}

/// So many arrays of so many entries and cells.
pub fn arrays_alike(
    alloc: Global,
    count: u32,
    entries: u32,
    cells: u32,
) -> Result<Listed<Array>, Memory>
    ensures { IfOk result (λ arrays. arrays ≡ replicate count (record { entries = entries; cells = cells })) }
{
    let mut arrays = Listed::new(alloc);
    for index in 0..count {
        let _ = index;
        arrays.push(Array { entries, cells })?;
    }
    Ok(arrays)
}
