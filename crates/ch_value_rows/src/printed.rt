//! Answers, counts and reports as texts.
use crate::reading::{bytes_of, cut, rows_of};
use ch_cells::{Answer, Bytes, Counts, Listed, OpenFlow};
use ch_print::{answer_text, counts_text, report_text};
use std::alloc::Global;
use std::str;

fn text_of(alloc: Global, bytes: &Bytes) -> anyhow::Result<String> {
    Ok(String::from_str(alloc, str::from_utf8(bytes.as_slice())?)?)
}

fn names_of(alloc: Global, said: &str) -> anyhow::Result<Listed<Bytes>> {
    let mut names = Listed::new(alloc);
    for name in said.split(';') {
        names.push(bytes_of(alloc, name)?)?;
    }
    Ok(names)
}

pub(crate) fn answer(alloc: Global, said: &str) -> anyhow::Result<String> {
    let (names, rows) = cut(said, "/");
    let header = names_of(alloc, names)?;
    let rows = Listed::from_vec(rows_of(alloc, rows)?);
    let text = answer_text(alloc, &Answer { header, rows })?;
    text_of(alloc, &text)
}

pub(crate) fn counts(alloc: Global, said: &str) -> anyhow::Result<String> {
    let (rows, behind) = cut(said, " ");
    let (sends, behind) = cut(behind, " ");
    let (pruned, behind) = cut(behind, " ");
    let (forwarded, steps) = cut(behind, " ");
    let counts = Counts {
        rows: rows.parse::<u64>()?,
        sends: sends.parse::<u64>()?,
        pruned: pruned.parse::<u64>()?,
        forwarded: forwarded.parse::<u64>()?,
        steps: steps.parse::<u64>()?,
    };
    let text = counts_text(alloc, &counts)?;
    text_of(alloc, &text)
}

fn numbers_of(alloc: Global, said: &str) -> anyhow::Result<Listed<u32>> {
    let mut numbers = Listed::new(alloc);
    if said == "-" {
        return Ok(numbers);
    }
    for number in said.split(',') {
        numbers.push(number.parse::<u32>()?)?;
    }
    Ok(numbers)
}

fn flow_of(alloc: Global, said: &str) -> anyhow::Result<OpenFlow> {
    let (pass, behind) = cut(said, " ");
    let (worker, behind) = cut(behind, " ");
    let (acknowledged, behind) = cut(behind, " ");
    let (of, numbers) = cut(behind, " ");
    Ok(OpenFlow {
        pass: pass.parse::<u8>()?,
        worker: worker.parse::<u16>()?,
        acknowledged: acknowledged.parse::<u32>()?,
        of: of.parse::<u32>()?,
        unacknowledged: numbers_of(alloc, numbers)?,
    })
}

pub(crate) fn report(alloc: Global, said: &str) -> anyhow::Result<String> {
    let mut pieces = said.split('/');
    let partial = pieces.next().unwrap_or("").parse::<u64>()?;
    let mut flows = Vec::new(alloc);
    for piece in pieces {
        flows.push(flow_of(alloc, piece)?)?;
    }
    let text = report_text(alloc, flows.as_slice(), partial)?;
    text_of(alloc, &text)
}
