//! What a command reads at its start, and how it ends.
//!
//! - `read NAMES`: what the files of these names hold, with `;` between two names, each with a comma behind it; or the line that
//!   says why they aren't read;
//! - `end ENDING/OUT/ERR`, `end fault/LINE` and `end memory`: the status, out and err of a command that has that to say;
//! - `refuse`: the statuses of words that aren't text and of words for which there is no memory, and what both say.
use crate::row::{Row, bytes_of, cut};
use crate::runs::Ran;
use ch_cells::Bytes;
use ch_command::{Ending, Outcome, Verdict, end, read_files, refuse_words};
use ch_outside::VecSink;
use std::alloc::Global;
use std::io::ErrorKind;
use std::str;

fn names_of<'a>(alloc: Global, said: &'a str) -> anyhow::Result<Vec<&'a str>> {
    let mut names = Vec::new(alloc);
    if said.is_empty() {
        return Ok(names);
    }
    for name in said.split(';') {
        names.push(name)?;
    }
    Ok(names)
}

fn line_of(verdict: &Verdict) -> &[u8] {
    match verdict {
        Verdict::Said(outcome) => outcome.err.as_slice(),
        Verdict::ReadFault(line) => line.as_slice(),
        Verdict::Memory => b"memory\n",
    }
}

fn text_of(alloc: Global, bytes: &[u8]) -> anyhow::Result<String> {
    Ok(String::from_str(alloc, str::from_utf8(bytes)?)?)
}

fn joined(alloc: Global, contents: &[Bytes]) -> anyhow::Result<String> {
    let mut text = String::new(alloc);
    for bytes in contents {
        text.push_str(str::from_utf8(bytes.as_slice())?)?;
        text.push(',')?;
    }
    text.push('\n')?;
    Ok(text)
}

pub(crate) fn read(alloc: Global, row: &Row, said: &str) -> anyhow::Result<String> {
    let names = names_of(alloc, said)?;
    let mut shelf = row.to_shelf(alloc)?;
    match read_files(alloc, &mut shelf, names.as_slice()) {
        Ok(contents) => joined(alloc, contents.as_slice()),
        Err(verdict) => {
            let line = text_of(alloc, line_of(&verdict));
            drop(verdict);
            line
        }
    }
}

/// The ending that a word names.
fn ending_of(word: &str) -> Ending {
    match word {
        "done" => Ending::Done,
        "usage" => Ending::Usage,
        "input" => Ending::Input,
        "rejected" => Ending::Rejected,
        _ => Ending::Open,
    }
}

/// What a command has to say.
fn verdict_of(alloc: Global, said: &str) -> anyhow::Result<Verdict> {
    let (word, behind) = cut(said, "/");
    if word == "memory" {
        return Ok(Verdict::Memory);
    }
    let (out, err) = cut(behind, "/");
    let out = bytes_of(alloc, out)?;
    if word == "fault" {
        return Ok(Verdict::ReadFault(out));
    }
    let err = bytes_of(alloc, err)?;
    Ok(Verdict::Said(Outcome {
        ending: ending_of(word),
        out,
        err,
    }))
}

pub(crate) fn ended(alloc: Global, row: &Row, said: &str) -> anyhow::Result<String> {
    let mut out = row.to_out(alloc)?;
    let mut err = row.to_err(alloc)?;
    let verdict = verdict_of(alloc, said)?;
    let status = end(verdict, &mut out, &mut err).code();
    let ran = Ran::new(alloc, status, &out, &err)?;
    ran.text(alloc)
}

pub(crate) fn refused(alloc: Global, said: &str) -> anyhow::Result<String> {
    let mut err = VecSink::new(alloc, Vec::new(alloc));
    let usage = bytes_of(alloc, said)?;
    let first = refuse_words(&mut err, ErrorKind::InvalidData, usage.as_slice());
    let second = refuse_words(&mut err, ErrorKind::OutOfMemory, usage.as_slice());
    let text = str::from_utf8(err.bytes())?;
    Ok(format!(in alloc; "{first:?}, {second:?}\n{text}")?)
}
