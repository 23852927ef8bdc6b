ghost use Rattle.std.specs.Prelude.{◌≡◌, ◌<◌, ◌≤◌, ℕ, ℤ, pos, Some, length, slice_index_or};
ghost use Rattle.ch_ir.specs.Machine.{machine, is_set};
ghost use Rattle.ch_verify.specs.Fits.{AllFits};
ghost use Rattle.ch_pipe.specs.Flat.{IsLaid, cut};
ghost use Rattle.ch_pipe.specs.Step.{Ready};

use crate::stage::run_stages;
use ch_ir::Program;

/// Writes the row, and 0 for the words that it lacks.
fn write_row(row: &[i64], width: usize, words: &mut [i64])
    requires many { length row.now ≤ width }
    requires room { width ≤ length words.old }
    ensures given { (w : ℕ) → w < width → slice_index_or words.new w (pos 0) ≡ slice_index_or row.now w (pos 0) }
    ensures fits { AllFits row.now }
{
    for at in 0..row.len() {
        words[at] = row[at];
    }
    words[row.len()..width].fill(0);
}

fn is_on_at(words: &[i64], at: u32) -> bool
    requires { at < length words.now }
    ensures { result ≡ is_set (slice_index_or words.now at (pos 0)) }
{
    words[at as usize] != 0
}

/// Runs the program on a row, and answers whether the row is pruned.
pub fn step_row(
    program: &Program,
    bases: &[usize],
    row: &[i64],
    words: &mut [i64],
    registers: &mut [i64],
    room: &mut [i64],
) -> bool
    requires laid { IsLaid program.now.arrays bases.now (length registers.old) }
    requires ready { Ready program.now (length words.old) (length room.old) (cut program.now.arrays registers.old) }
    requires many { length row.now ≤ program.now.width }
    ensures value { machine program.now (cut program.now.arrays registers.old) row.now ≡ Some (record { prune = result; registers = cut program.now.arrays registers.new }) }
    ensures ready { Ready program.now (length words.new) (length room.new) (cut program.now.arrays registers.new) }
{
    write_row(row, program.width as usize, words);
    run_stages(
        program.stages.as_slice(),
        program.arrays.as_slice(),
        bases,
        words,
        registers,
        room,
    );
    is_on_at(words, program.verdict)
}
