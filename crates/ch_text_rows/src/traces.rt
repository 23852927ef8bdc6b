//! Lines of traces.
use ch_trace_lines::{Line, LineError, cut_line, push_ending, push_noted, read_line};
use std::alloc::Global;
use std::str;

/// The line again, with its line feed.
fn again(alloc: Global, line: &[u8]) -> Result<Vec<u8>, LineError> {
    let mut text = Vec::new(alloc);
    let line = read_line(alloc, line)?;
    match &line {
        Line::Event(noted) => push_noted(&mut text, noted)?,
        Line::End(ending) => push_ending(&mut text, *ending)?,
    }
    Ok(text)
}

/// Whether a line is written as it is read, or why it is none of a trace.
pub(crate) fn trace_line(alloc: Global, line: &[u8]) -> anyhow::Result<String> {
    match again(alloc, line) {
        Ok(text) if text.strip_suffix(b"\n") == Some(line) => {
            Ok(String::from_str(alloc, "the same")?)
        }
        Ok(text) => Ok(format!(in alloc; "{:?}", str::from_utf8(text.as_slice())?)?),
        Err(error) => Ok(format!(in alloc; "{error:?}")?),
    }
}

/// The first line of a text, and the rest.
pub(crate) fn trace_cut(alloc: Global, text: &[u8]) -> anyhow::Result<String> {
    match cut_line(text) {
        Some((line, rest)) => {
            let (line, rest) = (str::from_utf8(line)?, str::from_utf8(rest)?);
            Ok(format!(in alloc; "{line:?} {rest:?}")?)
        }
        None => Ok(String::from_str(alloc, "none")?),
    }
}
