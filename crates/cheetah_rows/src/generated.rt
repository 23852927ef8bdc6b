//! Generated inputs. They are asked for by the words of `cheetah_gen`.
//!
//! - `requested WORDS`: the seed, the number of rows and the query, or `nothing`;
//! - `drawn WORDS NAME TEXT`: the length of the file of this name, its bytes as the digits of a number to the base 31, below
//!   2^32, and whether it begins with the text;
//! - `command WORDS`: the words of the command over the files, each with `|` behind it;
//! - `front WORDS ROWS BYTES`: how the line begins that sums up an answer of so many rows and bytes;
//! - `summary WORDS/ANSWER/COUNTS`: the line that sums up the text of an answer and the counts of its run.
use crate::row::{bytes_of, cut, words_of};
use ch_cells::Bytes;
use ch_generated::{
    InputKind, Request, command_words, files_of, query_text, requested_in, summary_front,
};
use cheetah_gen_words::summary;
use std::alloc::Global;
use std::str;

fn request_of(alloc: Global, said: &str) -> anyhow::Result<Option<Request>> {
    let words = words_of(alloc, said)?;
    Ok(requested_in(words.as_slice()))
}

/// The kind that words ask for, else a filter.
fn kind_of(alloc: Global, said: &str) -> anyhow::Result<InputKind> {
    match request_of(alloc, said)? {
        Some(request) => Ok(request.kind),
        None => Ok(InputKind::Filter),
    }
}

pub(crate) fn requested(alloc: Global, said: &str) -> anyhow::Result<String> {
    match request_of(alloc, said)? {
        Some(request) => {
            let (seed, rows) = (request.seed, request.rows);
            let query = query_text(request.kind);
            Ok(format!(in alloc; "{seed} {rows} {query}\n")?)
        }
        None => Ok(String::from_str(alloc, "nothing\n")?),
    }
}

fn folded(bytes: &[u8]) -> u64 {
    let mut sum: u64 = 0;
    for byte in bytes {
        sum = sum.wrapping_mul(31).wrapping_add(u64::from(*byte)) % 4_294_967_296;
    }
    sum
}

/// The bytes of the file of this name.
fn file_of<'a>(files: &'a [(String, Bytes)], name: &str) -> Option<&'a [u8]> {
    for file in files {
        if file.0.as_str() == name {
            return Some(file.1.as_slice());
        }
    }
    None
}

fn drawn_of(alloc: Global, request: &Request, said: &str) -> anyhow::Result<String> {
    let (name, text) = cut(said, " ");
    let text = bytes_of(alloc, text)?;
    let files = files_of(alloc, request)?;
    match file_of(files.as_slice(), name) {
        Some(bytes) => {
            let (length, sum) = (bytes.len(), folded(bytes));
            let begins = bytes.starts_with(text.as_slice());
            Ok(format!(in alloc; "{length} {sum} {begins}\n")?)
        }
        None => Ok(String::from_str(alloc, "no file\n")?),
    }
}

pub(crate) fn drawn(alloc: Global, said: &str) -> anyhow::Result<String> {
    let (words, said) = cut(said, " ");
    match request_of(alloc, words)? {
        Some(request) => drawn_of(alloc, &request, said),
        None => Ok(String::from_str(alloc, "nothing\n")?),
    }
}

pub(crate) fn command(alloc: Global, said: &str) -> anyhow::Result<String> {
    let kind = kind_of(alloc, said)?;
    let mut text = String::new(alloc);
    for word in command_words(alloc, kind)?.as_slice() {
        text.push_str(word.as_str())?;
        text.push('|')?;
    }
    text.push('\n')?;
    Ok(text)
}

pub(crate) fn front(alloc: Global, said: &str) -> anyhow::Result<String> {
    let (words, numbers) = cut(said, " ");
    let (rows, bytes) = cut(numbers, " ");
    let (rows, bytes) = (rows.parse::<u64>()?, bytes.parse::<u64>()?);
    let text = summary_front(alloc, kind_of(alloc, words)?, rows, bytes)?;
    Ok(format!(in alloc; "{}.\n", str::from_utf8(text.as_slice())?)?)
}

pub(crate) fn summed_up(alloc: Global, said: &str) -> anyhow::Result<String> {
    let (words, texts) = cut(said, "/");
    let (answer, counts) = cut(texts, "/");
    let answer = bytes_of(alloc, answer)?;
    let counts = bytes_of(alloc, counts)?;
    let kind = kind_of(alloc, words)?;
    let line = summary(alloc, kind, answer.as_slice(), counts.as_slice())?;
    Ok(String::from_str(alloc, str::from_utf8(line.as_slice())?)?)
}
