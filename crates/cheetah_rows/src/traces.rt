//! Each byte of a line of a trace is changed in turn.
//!
//! - `changed NUMBER WORDS`: runs the words over the row's files, where each byte of that line of the file `trace`, its line
//!   feed too, is changed into each of six others. It tells how often the trace is refused at this line, and each change for
//!   which it isn't: the byte's place in the line, the byte, and what the run came to.
use crate::row::{File, Row, cut};
use crate::runs::{Ran, run_over};
use ch_cells::Bytes;
use ch_outside::MapShelf;
use std::alloc::Global;

/// What stands in for a byte.
const OTHERS: &[u8] = b"09e -\n";

/// The places at which a line begins, and at which its line feed stands.
fn line_at(bytes: &[u8], number: u32) -> (usize, usize) {
    let mut begin: usize = 0;
    let mut line: u32 = 0;
    for (at, byte) in bytes.iter().enumerate() {
        if *byte == b'\n' {
            if line == number {
                return (begin, at);
            }
            line = line.wrapping_add(1);
            begin = at.wrapping_add(1);
        }
    }
    (begin, begin)
}

/// A file, where another byte may stand at a place of the trace.
fn changed_file(alloc: Global, file: &File, place: usize, byte: u8) -> anyhow::Result<Bytes> {
    let mut text = Vec::from_slice(alloc, file.bytes.as_slice())?;
    if file.name.as_str() == "trace" {
        if let Some(changed) = text.get_mut(place) {
            *changed = byte;
        }
    }
    Ok(Bytes::from_vec(text))
}

fn changed_shelf(alloc: Global, row: &Row, place: usize, byte: u8) -> anyhow::Result<MapShelf> {
    let mut files = Vec::new(alloc);
    for file in &row.files {
        let bytes = changed_file(alloc, file, place, byte)?;
        files.push((String::from_str(alloc, file.name.as_str())?, bytes))?;
    }
    Ok(MapShelf::new(files, Vec::new(alloc)))
}

/// Whether a run says that the trace is refused at this line, and no more.
fn is_refused(alloc: Global, ran: &Ran, number: u32) -> anyhow::Result<bool> {
    let said = format!(in alloc; "trace refused: line {}\n", number.wrapping_add(1))?;
    Ok(ran.status == 3 && ran.out.as_slice().is_empty() && ran.err.as_slice() == said.as_bytes())
}

/// A line of the trace, and what was found of it.
#[derive(Drop)]
struct Found {
    number: u32,
    begin: usize,
    refused: u32,
    lines: String,
}

/// Notes what a run came to where this byte stood at a place.
fn note(alloc: Global, found: &mut Found, ran: &Ran, place: usize, byte: u8) -> anyhow::Result<()> {
    if is_refused(alloc, ran, found.number)? {
        found.refused = found.refused.wrapping_add(1);
        return Ok(());
    }
    let text = ran.text(alloc)?;
    let at = place.wrapping_sub(found.begin);
    let line = format!(in alloc; "{at} {byte}: {text}")?;
    found.lines.push_str(line.as_str())?;
    Ok(())
}

/// Changes the byte at a place into each other one.
fn change(
    alloc: Global,
    row: &Row,
    words: &str,
    found: &mut Found,
    place: usize,
    there: u8,
) -> anyhow::Result<()> {
    for byte in OTHERS {
        if *byte != there {
            let mut shelf = changed_shelf(alloc, row, place, *byte)?;
            let ran = run_over(alloc, row, cut(words, "|").0, words, &mut shelf)?;
            note(alloc, found, &ran, place, *byte)?;
        }
    }
    Ok(())
}

/// The file `trace` of a row.
fn trace_of(row: &Row) -> &[u8] {
    for file in &row.files {
        if file.name.as_str() == "trace" {
            return file.bytes.as_slice();
        }
    }
    &[]
}

pub(crate) fn changed(alloc: Global, row: &Row, said: &str) -> anyhow::Result<String> {
    let (number, words) = cut(said, " ");
    let number = number.parse::<u32>()?;
    let trace = trace_of(row);
    let (begin, end) = line_at(trace, number);
    let mut found = Found {
        number,
        begin,
        refused: 0,
        lines: String::new(alloc),
    };
    for (place, there) in trace.iter().enumerate() {
        if begin <= place && place <= end {
            change(alloc, row, words, &mut found, place, *there)?;
        }
    }
    let (refused, lines) = (found.refused, found.lines.as_str());
    Ok(format!(in alloc; "{refused} refused\n{lines}")?)
}
