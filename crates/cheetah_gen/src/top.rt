ghost use Rattle.std.specs.Prelude.{◌≤◌, map, string_bytes};
ghost use Rattle.ch_outside.specs.Faults.{StaysReliable};
ghost use Rattle.ch_command.specs.Call.{Promise, change_of};
ghost use Rattle.cheetah_gen.specs.Result.{IsStatus, call_of, command_of};

use crate::verdict::consider;
use ch_cells::Listed;
use ch_command::end;
use ch_outside::Sink;
use std::alloc::Global;

/// Runs the command that the words give, the program's name first, and answers the exit status.
pub fn cheetah_gen<O: Sink, E: Sink>(
    alloc: Global,
    words: &Listed<String>,
    out: &mut O,
    err: &mut E,
) -> u8
    ensures promise { Promise (command_of (map string_bytes words.now))
        (call_of (change_of O.written O.faults out.old out.new) (change_of E.written E.faults err.old err.new) result) }
    ensures statuses { IsStatus result }

    // No count of faults falls, and whoever promised that no call fails still does.
    ensures out_later { O.faults out.old ≤ O.faults out.new }
    ensures err_later { E.faults err.old ≤ E.faults err.new }
    ensures out_steady { StaysReliable (O.reliable out.old) (O.reliable out.new) (O.faults out.old) (O.faults out.new) }
    ensures err_steady { StaysReliable (E.reliable err.old) (E.reliable err.new) (E.faults err.old) (E.faults err.new) }
{
    end(consider(alloc, words), out, err).code()
}
