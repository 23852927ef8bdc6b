ghost use Rattle.std.specs.Prelude.{◌≡◌, ◌≤◌, map, string_bytes};
ghost use Rattle.ch_outside.specs.Faults.{StaysReliable};
ghost use Rattle.ch_command.specs.Call.{Promise, change_of, faults_of};
ghost use Rattle.cheetah_pack_meaning.specs.Meaning.{command_of};

use crate::verdict::consider;
use ch_cells::Listed;
use ch_command::end;
use ch_outside::{Shelf, Sink};
use std::alloc::Global;

/// Runs the command that the words give, the program's name first, and answers the exit status.
pub fn cheetah_pack<F: Shelf, O: Sink, E: Sink>(
    alloc: Global,
    words: &Listed<String>,
    shelf: &mut F,
    out: &mut O,
    err: &mut E,
) -> u8
    ensures promise { Promise (command_of (map string_bytes words.now)) (record {
      told = F.told shelf.old;
      shelf = faults_of F.faults shelf.old shelf.new;
      out = change_of O.written O.faults out.old out.new;
      err = change_of E.written E.faults err.old err.new;
      status = result;
    }) }

    // The shelf still tells the same, no count of faults falls, and whoever promised that no call fails still does.
    ensures same { F.told shelf.new ≡ F.told shelf.old }
    ensures shelf_later { F.faults shelf.old ≤ F.faults shelf.new }
    ensures out_later { O.faults out.old ≤ O.faults out.new }
    ensures err_later { E.faults err.old ≤ E.faults err.new }
    ensures shelf_steady { StaysReliable (F.reliable shelf.old) (F.reliable shelf.new) (F.faults shelf.old) (F.faults shelf.new) }
    ensures out_steady { StaysReliable (O.reliable out.old) (O.reliable out.new) (O.faults out.old) (O.faults out.new) }
    ensures err_steady { StaysReliable (E.reliable err.old) (E.reliable err.new) (E.faults err.old) (E.faults err.new) }
{
    let verdict = consider(alloc, words, shelf);
    end(verdict, out, err).code()
}
