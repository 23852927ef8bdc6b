//! Shelf and sinks in memory.
//!
//! - `lend CALLS`: what the row's shelf lends in turn, with `;` between two calls, each the name of a file and the most bytes;
//! - `put PIECES`: what stands on out before and behind each piece that is put there in turn, with `;` between two, and whether
//!   it was put;
//! - `memory NAME`: how a run over that file ends, where there are no files.
ghost use Rattle.std.specs.Prelude.{◌≡◌, ◌≢◌, ◌⊎◌};
ghost use Rattle.ch_outside.specs.Faults.{Rose, StaysReliable};

use crate::row::{Row, cut};
use ch_cells::Bytes;
use ch_outside::{MapShelf, Shelf, ShelfError, Sink, SinkError, VecSink};
use std::alloc::Global;
use std::str;

/// What a shelf lends, as a line.
pub(crate) fn lent_text(alloc: Global, lent: Result<Bytes, ShelfError>) -> anyhow::Result<String> {
    match lent {
        Ok(bytes) => {
            let text = str::from_utf8(bytes.as_slice())?;
            Ok(format!(in alloc; "lent {text}\n")?)
        }
        Err(error) => Ok(format!(in alloc; "{error:?}\n")?),
    }
}

pub(crate) fn lent(alloc: Global, row: &Row, said: &str) -> anyhow::Result<String> {
    let mut shelf = row.to_shelf(alloc)?;
    let mut lines = String::new(alloc);
    for call in said.split(';') {
        let (name, most) = cut(call, " ");
        let bytes = shelf.read_all(alloc, name, most.parse::<usize>()?);
        lines.push_str(lent_text(alloc, bytes)?.as_str())?;
    }
    Ok(lines)
}

fn push_put(alloc: Global, lines: &mut String, sink: &VecSink, put: bool) -> anyhow::Result<()> {
    let there = str::from_utf8(sink.bytes())?;
    lines.push_str(format!(in alloc; "{put} {there}.\n")?.as_str())?;
    Ok(())
}

pub(crate) fn put(alloc: Global, row: &Row, said: &str) -> anyhow::Result<String> {
    let mut sink = row.to_out(alloc)?;
    let mut lines = String::new(alloc);
    push_put(alloc, &mut lines, &sink, true)?;
    for piece in said.split(';') {
        let put = sink.put(piece.as_bytes()).is_ok();
        push_put(alloc, &mut lines, &sink, put)?;
    }
    Ok(lines)
}

/// How a run over one file ends.
#[derive(Debug, Clone, Copy, PartialEq, Eq)]
enum Ending {
    Done,
    Refused,
    Fault,
    Memory,
}

/// A run over any shelf and any sink.
fn copy_file<S: Shelf, K: Sink>(alloc: Global, name: &str, shelf: &mut S, out: &mut K) -> Ending
    ensures fault { result ≡ Ending.Fault →
        Rose (S.faults shelf.old) (S.faults shelf.new) ⊎ Rose (K.faults out.old) (K.faults out.new) }
    ensures steady_shelf { StaysReliable (S.reliable shelf.old) (S.reliable shelf.new)
        (S.faults shelf.old) (S.faults shelf.new) }
    ensures steady_out { StaysReliable (K.reliable out.old) (K.reliable out.new)
        (K.faults out.old) (K.faults out.new) }
{
    match shelf.read_all(alloc, name, 100) {
        Ok(bytes) => match out.put(bytes.as_slice()) {
            Ok(()) => Ending::Done,
            Err(SinkError::Failed) => Ending::Fault,
            Err(SinkError::Memory) => Ending::Memory,
        },
        Err(ShelfError::Failed) => Ending::Fault,
        Err(ShelfError::Memory) => Ending::Memory,
        Err(ShelfError::Missing) => Ending::Refused,
        Err(ShelfError::TooLarge { taken: _ }) => Ending::Refused,
    }
}

/// Who holds files and bytes in memory that never fail knows that a run has no fault.
fn copy_in_memory(alloc: Global, name: &str, files: Vec<(String, Bytes)>) -> Ending
    ensures { result ≢ Ending.Fault }
{
    let mut shelf = MapShelf::new(files, Vec::new(alloc));
    let mut out = VecSink::new(alloc, Vec::new(alloc));
    copy_file(alloc, name, &mut shelf, &mut out)
}

pub(crate) fn memory(alloc: Global, said: &str) -> anyhow::Result<String> {
    let ending = copy_in_memory(alloc, said, Vec::new(alloc));
    Ok(format!(in alloc; "{ending:?}\n")?)
}
