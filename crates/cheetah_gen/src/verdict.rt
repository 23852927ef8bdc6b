ghost use Rattle.std.specs.Prelude.{◌≡◌, ◌⊎◌, Some, map, string_bytes};
ghost use Rattle.ch_command.specs.Verdict.{Fits};
ghost use Rattle.ch_generated.specs.Request.{usage_line};
ghost use Rattle.cheetah_gen.specs.Result.{command_of, no_faults, no_files};

use crate::running::sum_up;
use ch_cells::{Bytes, Listed};
use ch_command::{Misuse, Verdict};
use ch_generated::requested_in;
use std::alloc::Global;

const USAGE: &[u8] = b"usage: cheetah_gen SEED ROWS KIND\n";

fn usage(alloc: Global) -> Misuse
    ensures { (result ≡ Misuse.Line usage_line) ⊎ (result ≡ Misuse.Memory) }
{
    match Bytes::from_slice(alloc, USAGE) {
        Ok(line) => Misuse::Line(line),
        Err(_) => Misuse::Memory,
    }
}

/// What the command that the words give has to say.
pub(crate) fn consider(alloc: Global, words: &Listed<String>) -> Verdict
    ensures { Fits (Some no_files) no_faults (command_of (map string_bytes words.now)) result }
{
    match requested_in(words.as_slice()) {
        Some(request) => Verdict::of(sum_up(alloc, &request)),
        None => usage(alloc).verdict(alloc),
    }
}
