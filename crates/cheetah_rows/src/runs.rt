//! Commands over the files of a row.
//!
//! - `run WORDS`: the status, what is on out, and behind `err: ` what is on err;
//! - `bare COMMAND`: the same, without any words;
//! - `usage WORDS`: the status, how many bytes are on out, and whether any are on err, which isn't fixed;
//! - `begins TEXT/WORDS`: the status, whether out begins so, and how many bytes are on err.
use crate::row::{Row, bytes_of, cut, listed_words};
use ch_cells::{Bytes, Listed};
use ch_outside::{MapShelf, VecSink};
use cheetah::cheetah;
use cheetah_audit::cheetah_audit;
use cheetah_check::cheetah_check;
use cheetah_gen::cheetah_gen;
use cheetah_pack::cheetah_pack;
use std::alloc::Global;
use std::str;

/// What a run came to.
#[derive(Drop)]
pub(crate) struct Ran {
    pub(crate) status: u8,
    pub(crate) out: Bytes,
    pub(crate) err: Bytes,
}

impl Ran {
    pub(crate) fn new(
        alloc: Global,
        status: u8,
        out: &VecSink,
        err: &VecSink,
    ) -> anyhow::Result<Ran> {
        let out = Bytes::from_slice(alloc, out.bytes())?;
        let err = Bytes::from_slice(alloc, err.bytes())?;
        Ok(Ran { status, out, err })
    }

    /// The status, out, and behind `err: ` err.
    pub(crate) fn text(&self, alloc: Global) -> anyhow::Result<String> {
        let status = self.status;
        let out = str::from_utf8(self.out.as_slice())?;
        let err = str::from_utf8(self.err.as_slice())?;
        Ok(format!(in alloc; "status {status}\n{out}err: {err}\n")?)
    }
}

/// The status of a command.
fn status_of(
    alloc: Global,
    name: &str,
    words: &Listed<String>,
    shelf: &mut MapShelf,
    out: &mut VecSink,
    err: &mut VecSink,
) -> u8 {
    match name {
        "cheetah_audit" => cheetah_audit(alloc, words, shelf, out, err),
        "cheetah_check" => cheetah_check(alloc, words, shelf, out, err),
        "cheetah_gen" => cheetah_gen(alloc, words, out, err),
        "cheetah_pack" => cheetah_pack(alloc, words, shelf, out, err),
        _ => cheetah(alloc, words, shelf, out, err),
    }
}

/// What words come to over a shelf, where they are those of this command.
pub(crate) fn run_over(
    alloc: Global,
    row: &Row,
    name: &str,
    said: &str,
    shelf: &mut MapShelf,
) -> anyhow::Result<Ran> {
    let words = listed_words(alloc, said)?;
    let mut out = row.to_out(alloc)?;
    let mut err = row.to_err(alloc)?;
    let status = status_of(alloc, name, &words, shelf, &mut out, &mut err);
    Ran::new(alloc, status, &out, &err)
}

fn made_run(alloc: Global, row: &Row, name: &str, said: &str) -> anyhow::Result<Ran> {
    let mut shelf = row.to_shelf(alloc)?;
    run_over(alloc, row, name, said, &mut shelf)
}

pub(crate) fn run(alloc: Global, row: &mut Row, said: &str) -> anyhow::Result<String> {
    let ran = made_run(alloc, row, cut(said, "|").0, said)?;
    row.note(alloc, &ran.out)?;
    ran.text(alloc)
}

pub(crate) fn bare(alloc: Global, row: &Row, said: &str) -> anyhow::Result<String> {
    let ran = made_run(alloc, row, said, "")?;
    ran.text(alloc)
}

pub(crate) fn usage(alloc: Global, row: &Row, said: &str) -> anyhow::Result<String> {
    let ran = made_run(alloc, row, cut(said, "|").0, said)?;
    let (status, out, any) = (ran.status, ran.out.len(), ran.err.len() > 0);
    Ok(format!(in alloc; "status {status}, out {out}, err {any}\n")?)
}

pub(crate) fn begins(alloc: Global, row: &Row, said: &str) -> anyhow::Result<String> {
    let (text, words) = cut(said, "/");
    let text = bytes_of(alloc, text)?;
    let ran = made_run(alloc, row, cut(words, "|").0, words)?;
    let begins = ran.out.as_slice().starts_with(text.as_slice());
    let (status, err) = (ran.status, ran.err.len());
    Ok(format!(in alloc; "status {status}, begins {begins}, err {err}\n")?)
}
