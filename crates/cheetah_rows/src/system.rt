//! Files and streams of the system. One file has a name of its own, which a line writes as `@`.
//!
//! - `streams`: whether the standard output takes a line, and the standard error a line and an empty piece;
//! - `write TEXT`, `fill COUNT` and `remove`: the file holds the text, or so many letters x, or is there no more;
//! - `disk NAME COUNT`: how many bytes a shelf lends of a file, and how many of them are x, or why it lends none;
//! - `print PARTS`: the status of a filter over these parts, whose answer goes to the standard output;
//! - `over PARTS`: the same over an out in memory, with what is on it.
use crate::row::{Row, bytes_of, cut, listed_words};
use ch_cells::Bytes;
use ch_outside::{DiskShelf, Shelf, Sink, StdSink};
use cheetah::cheetah;
use std::alloc::Global;
use std::{fs, str};

pub(crate) fn streams(rt: &HostRuntime) -> anyhow::Result<String> {
    let mut out = StdSink::out(rt);
    let mut err = StdSink::err(rt);
    let first = out.put(b"to the standard output\n").is_ok();
    let second = err.put(b"to the standard error\n").is_ok();
    let third = err.put(b"").is_ok();
    Ok(format!(in rt.alloc(); "{first} {second} {third}\n")?)
}

/// The name of the file.
fn own_name(rt: &HostRuntime) -> anyhow::Result<String> {
    let number = std::process::id(rt.process());
    Ok(format!(in rt.alloc(); "/tmp/cheetah_rows-{number}")?)
}

pub(crate) fn write(rt: &HostRuntime, said: &str) -> anyhow::Result<String> {
    let name = own_name(rt)?;
    let bytes = bytes_of(rt.alloc(), said)?;
    fs::write(rt, name.as_str(), bytes.as_slice())?;
    Ok(String::new(rt.alloc()))
}

pub(crate) fn fill(rt: &HostRuntime, said: &str) -> anyhow::Result<String> {
    let name = own_name(rt)?;
    let bytes = vec![in rt.alloc(); b'x'; said.parse::<usize>()?]?;
    fs::write(rt, name.as_str(), bytes.as_slice())?;
    Ok(String::new(rt.alloc()))
}

pub(crate) fn remove(rt: &HostRuntime) -> anyhow::Result<String> {
    let name = own_name(rt)?;
    fs::remove_file(rt, name.as_str())?;
    Ok(String::new(rt.alloc()))
}

/// A text, with the file's name for each `@`.
fn named(rt: &HostRuntime, said: &str) -> anyhow::Result<String> {
    let name = own_name(rt)?;
    let mut text = String::new(rt.alloc());
    for letter in said.chars() {
        if letter == '@' {
            text.push_str(name.as_str())?;
        } else {
            text.push(letter)?;
        }
    }
    Ok(text)
}

/// How many letters x there are.
fn count_x(bytes: &Bytes) -> usize {
    bytes
        .as_slice()
        .iter()
        .filter(|byte| **byte == b'x')
        .count()
}

pub(crate) fn disk(rt: &HostRuntime, said: &str) -> anyhow::Result<String> {
    let (name, most) = cut(said, " ");
    let name = named(rt, name)?;
    let mut shelf = DiskShelf::new(rt);
    match shelf.read_all(rt.alloc(), name.as_str(), most.parse::<usize>()?) {
        Ok(bytes) => {
            let (count, letters) = (bytes.len(), count_x(&bytes));
            Ok(format!(in rt.alloc(); "{count} bytes, {letters} of x\n")?)
        }
        Err(error) => Ok(format!(in rt.alloc(); "{error:?}\n")?),
    }
}

/// The status of the filter over these parts; err is the standard error.
fn status_over<O: Sink>(rt: &HostRuntime, said: &str, out: &mut O) -> anyhow::Result<u8> {
    let parts = named(rt, said)?;
    let parts = parts.as_str();
    let words = format!(in rt.alloc(); "cheetah|--query|SELECT a FROM t WHERE a > 4|{parts}")?;
    let words = listed_words(rt.alloc(), words.as_str())?;
    let mut shelf = DiskShelf::new(rt);
    let mut err = StdSink::err(rt);
    Ok(cheetah(rt.alloc(), &words, &mut shelf, out, &mut err))
}

pub(crate) fn print(rt: &HostRuntime, said: &str) -> anyhow::Result<String> {
    let mut out = StdSink::out(rt);
    let status = status_over(rt, said, &mut out)?;
    Ok(format!(in rt.alloc(); "status {status}\n")?)
}

pub(crate) fn over(rt: &HostRuntime, row: &Row, said: &str) -> anyhow::Result<String> {
    let mut out = row.to_out(rt.alloc())?;
    let status = status_over(rt, said, &mut out)?;
    let text = str::from_utf8(out.bytes())?;
    Ok(format!(in rt.alloc(); "status {status}\n{text}")?)
}
