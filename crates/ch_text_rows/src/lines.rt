//! Lines and fields.
use ch_lines::{is_said, next_field, next_line};
use std::alloc::Global;
use std::str;

/// The lines of a text, each in quotes.
pub(crate) fn lines(alloc: Global, text: &[u8]) -> anyhow::Result<String> {
    let mut said = String::new(alloc);
    let mut rest = text;
    for _ in 0..text.len() {
        if let Some(cut) = next_line(rest) {
            let line = str::from_utf8(cut.first)?;
            said.push_str(format!(in alloc; "{line:?} ")?.as_str())?;
            rest = cut.rest;
        }
    }
    Ok(said)
}

/// The fields of a line, each in quotes.
pub(crate) fn fields(alloc: Global, line: &[u8]) -> anyhow::Result<String> {
    let mut said = String::new(alloc);
    let mut rest = line;
    for _ in 0..line.len() {
        if let Some(cut) = next_field(rest) {
            let field = str::from_utf8(cut.first)?;
            said.push_str(format!(in alloc; "{field:?} ")?.as_str())?;
            rest = cut.rest;
        }
    }
    Ok(said)
}

/// Whether a line says anything.
pub(crate) fn is_said_in(alloc: Global, line: &[u8]) -> anyhow::Result<String> {
    Ok(format!(in alloc; "{}", is_said(line))?)
}
