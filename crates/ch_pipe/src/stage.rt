ghost use Rattle.std.specs.Prelude.{◌≡◌, length};
ghost use Rattle.ch_pipe.specs.Flat.{IsLaid, cut};
ghost use Rattle.ch_pipe.specs.Stages.{AccessesCan, StagesCan, total_accesses, total_stages};

use crate::access::run_access;
use crate::ops::run_ops;
use ch_ir::{Access, Array, Stage};

/// Makes the accesses in order.
pub fn run_accesses(
    accesses: &[Access],
    arrays: &[Array],
    bases: &[usize],
    words: &mut [i64],
    registers: &mut [i64],
    room: &mut [i64],
)
    requires laid { IsLaid arrays.now bases.now (length registers.old) }
    requires can { AccessesCan (length words.old) (length room.old) arrays.now accesses.now (record { words = words.old; registers = cut arrays.now registers.old }) }
    ensures { record { words = words.new; registers = cut arrays.now registers.new } ≡ total_accesses arrays.now accesses.now (record { words = words.old; registers = cut arrays.now registers.old }) }
{
    for x in accesses {
        run_access(x, arrays, bases, words, registers, room);
    }
}

/// Runs the stages in order.
pub fn run_stages(
    stages: &[Stage],
    arrays: &[Array],
    bases: &[usize],
    words: &mut [i64],
    registers: &mut [i64],
    room: &mut [i64],
)
    requires laid { IsLaid arrays.now bases.now (length registers.old) }
    requires can { StagesCan (length words.old) (length room.old) arrays.now stages.now (record { words = words.old; registers = cut arrays.now registers.old }) }
    ensures { record { words = words.new; registers = cut arrays.now registers.new } ≡ total_stages arrays.now stages.now (record { words = words.old; registers = cut arrays.now registers.old }) }
{
    for stage in stages {
        run_ops(stage.ops.as_slice(), words);
        run_accesses(
            stage.accesses.as_slice(),
            arrays,
            bases,
            words,
            registers,
            room,
        );
    }
}
