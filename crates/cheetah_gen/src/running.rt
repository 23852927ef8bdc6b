ghost use Rattle.std.specs.Prelude.{◌≡◌, [], IfOk, map};
ghost use Rattle.ch_generated_laws.specs.Tables.{IsInRange};
ghost use Rattle.ch_outside.specs.MapShelf.{named};
ghost use Rattle.cheetah_gen.specs.InMemory.{untouched};
ghost use Rattle.cheetah_gen.specs.Result.{SumsUp};

use ch_cells::{Bytes, Listed, Memory};
use ch_command::Outcome;
use ch_generated::{Request, command_words, files_of};
use ch_outside::{MapShelf, VecSink};
use cheetah::cheetah;
use cheetah_gen_words::summary;
use std::alloc::Global;

/// These files, of which no read is to fail.
fn shelf_of(alloc: Global, files: Vec<(String, Bytes)>) -> MapShelf
    ensures { result ≡ record { files = map named files.items; plan = untouched } }
{
    MapShelf::new(files, Vec::new(alloc))
}

/// A sink that has written nothing, and of which no write is to fail.
fn empty_sink(alloc: Global) -> VecSink
    ensures { result ≡ record { bytes = []; plan = untouched } }
{
    VecSink::new(alloc, Vec::new(alloc))
}

/// Runs the query over the generated files, and sums up its answer. It comes to an answer unless memory runs out.
pub(crate) fn sum_up(alloc: Global, request: &Request) -> Result<Outcome, Memory>
    requires { IsInRange request.now }
    ensures { IfOk result (λ outcome. SumsUp request.now outcome) }
{
    let asked = command_words(alloc, request.kind)?;
    let words = Listed::from_vec(asked);
    let files = files_of(alloc, request)?;
    let mut shelf = shelf_of(alloc, files);
    let mut out = empty_sink(alloc);
    let mut err = empty_sink(alloc);
    let status = cheetah(alloc, &words, &mut shelf, &mut out, &mut err);
    match status {
        0 => {
            let text = out.bytes();
            let counts = err.bytes();
            let line = summary(alloc, request.kind, text, counts)?;
            Ok(Outcome::answered(alloc, line))
        }
        7 => Err(Memory),
        _ => unreachable!(),
    }
}
