//! A query from its words to its run.
//!
//! - `watch WORDS`: the answer over what the master has received, and how the run stands, at its start and behind each step of
//!   its schedule. The row's files are the schedule and the parts, as the words name them.
ghost use Rattle.std.specs.Prelude.{◌≤◌, All, IfOk, length};
ghost use Rattle.ch_command.specs.Reading.{most_bytes};
ghost use Rattle.cheetah_run.specs.Asking.{AreAsked};

use crate::row::{File, Row, words_of};
use crate::watching::watch;
use ch_cells::{Bytes, Listed, Memory};
use ch_plan::plan;
use cheetah_inputs::{Inputs, read_inputs};
use cheetah_words::{Asked, asked_in};
use std::alloc::Global;

/// The bytes of short files.
fn texts_of(alloc: Global, files: &[File]) -> Result<Listed<Bytes>, Memory>
    ensures { IfOk result (λ read. All (λ bytes. length bytes ≤ most_bytes) read) }
{
    let mut read = Listed::new(alloc);
    for file in files {
        let text = file.bytes.as_slice();
        if text.len() > 1000 {
            return Err(Memory);
        }
        read.push(Bytes::from_slice(alloc, text)?)?;
    }
    Ok(read)
}

/// The run of a query that is bound, if it can be planned.
fn planned(alloc: Global, inputs: &Inputs) -> anyhow::Result<String>
    requires { AreAsked inputs.now }
{
    match plan(alloc, &inputs.bound, &inputs.profile) {
        Ok(planned) => watch(alloc, inputs, planned),
        Err(error) => Ok(format!(in alloc; "{error}\n")?),
    }
}

/// The run of what was asked, if the texts are accepted.
fn read(alloc: Global, asked: &Asked<'_>, texts: Listed<Bytes>) -> anyhow::Result<String>
    requires few { length asked.now.tables ≤ 64 }
    requires small { All (λ bytes. length bytes ≤ most_bytes) texts }
{
    match read_inputs(alloc, asked, texts) {
        Ok(inputs) => planned(alloc, &inputs),
        Err(refusal) => Ok(format!(in alloc; "{refusal:?}\n")?),
    }
}

/// The run of a command over the files of a row.
pub(crate) fn watched(alloc: Global, row: &Row, said: &str) -> anyhow::Result<String> {
    let words = words_of(alloc, said)?;
    let texts = texts_of(alloc, row.files.as_slice())?;
    match asked_in(alloc, words.as_slice()) {
        Ok(asked) => read(alloc, &asked, texts),
        Err(misuse) => Ok(format!(in alloc; "{misuse:?}\n")?),
    }
}
