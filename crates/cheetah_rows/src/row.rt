//! The files and faults of a row.
//!
//! - `file NAME TEXT` is a file;
//! - `large NAME COUNT` is a file of so many line ends;
//! - `keep NAME` makes a file of what the last `run` put on out;
//! - `shelf N`, `out N` and `err N` let that call of the shelf or of a sink fail, from 0 on.
use ch_cells::{Bytes, Listed};
use ch_outside::{MapShelf, VecSink};
use std::alloc::Global;

/// A file's name and its bytes.
#[derive(Drop)]
pub(crate) struct File {
    pub(crate) name: String,
    pub(crate) bytes: Bytes,
}

/// The files of a row, the calls of its shelf and sinks that fail, and what its last run put on out.
#[derive(Drop)]
pub(crate) struct Row {
    pub(crate) files: Vec<File>,
    shelf: Vec<u32>,
    out: Vec<u32>,
    err: Vec<u32>,
    last: Bytes,
}

impl Row {
    pub(crate) fn new(alloc: Global) -> Row {
        Row {
            files: Vec::new(alloc),
            shelf: Vec::new(alloc),
            out: Vec::new(alloc),
            err: Vec::new(alloc),
            last: Bytes::from_vec(Vec::new(alloc)),
        }
    }

    /// Notes what a run put on out.
    pub(crate) fn note(&mut self, alloc: Global, out: &Bytes) -> anyhow::Result<()> {
        self.last = Bytes::from_slice(alloc, out.as_slice())?;
        Ok(())
    }

    fn put_file(&mut self, alloc: Global, name: &str, bytes: Bytes) -> anyhow::Result<()> {
        let name = String::from_str(alloc, name)?;
        self.files.push(File { name, bytes })?;
        Ok(())
    }

    /// Whether a line adds to the row. It is added.
    pub(crate) fn takes(&mut self, alloc: Global, word: &str, said: &str) -> anyhow::Result<bool> {
        match word {
            "file" => {
                let (name, text) = cut(said, " ");
                self.put_file(alloc, name, bytes_of(alloc, text)?)?;
            }
            "large" => {
                let (name, count) = cut(said, " ");
                let bytes = vec![in alloc; 10u8; count.parse::<usize>()?]?;
                self.put_file(alloc, name, Bytes::from_vec(bytes))?;
            }
            "keep" => {
                let bytes = Bytes::from_slice(alloc, self.last.as_slice())?;
                self.put_file(alloc, said, bytes)?;
            }
            "shelf" => self.shelf.push(said.parse::<u32>()?)?,
            "out" => self.out.push(said.parse::<u32>()?)?,
            "err" => self.err.push(said.parse::<u32>()?)?,
            _ => return Ok(false),
        }
        Ok(true)
    }

    /// A shelf with the files.
    pub(crate) fn to_shelf(&self, alloc: Global) -> anyhow::Result<MapShelf> {
        let mut files = Vec::new(alloc);
        for file in &self.files {
            let bytes = Bytes::from_slice(alloc, file.bytes.as_slice())?;
            files.push((String::from_str(alloc, file.name.as_str())?, bytes))?;
        }
        Ok(MapShelf::new(files, Vec::from_slice(alloc, self.shelf.as_slice())?))
    }

    pub(crate) fn to_out(&self, alloc: Global) -> anyhow::Result<VecSink> {
        Ok(VecSink::new(alloc, Vec::from_slice(alloc, self.out.as_slice())?))
    }

    pub(crate) fn to_err(&self, alloc: Global) -> anyhow::Result<VecSink> {
        Ok(VecSink::new(alloc, Vec::from_slice(alloc, self.err.as_slice())?))
    }
}

/// What is before a piece of text, and what is behind it.
pub(crate) fn cut<'a>(said: &'a str, at: &str) -> (&'a str, &'a str) {
    said.split_once(at).unwrap_or((said, ""))
}

/// The bytes of a text whose line ends are written as `|` and whose carriage returns as `^`.
pub(crate) fn bytes_of(alloc: Global, text: &str) -> anyhow::Result<Bytes> {
    let mut bytes = Vec::new(alloc);
    for byte in text.as_bytes() {
        bytes.push(match *byte {
            b'|' => b'\n',
            b'^' => b'\r',
            other => other,
        })?;
    }
    Ok(Bytes::from_vec(bytes))
}

/// Words with `|` between two of them, and none where nothing is said.
pub(crate) fn words_of(alloc: Global, said: &str) -> anyhow::Result<Vec<String>> {
    let mut words = Vec::new(alloc);
    if said.is_empty() {
        return Ok(words);
    }
    for word in said.split('|') {
        words.push(String::from_str(alloc, word)?)?;
    }
    Ok(words)
}

/// Those words, as a command takes them.
pub(crate) fn listed_words(alloc: Global, said: &str) -> anyhow::Result<Listed<String>> {
    Ok(Listed::from_vec(words_of(alloc, said)?))
}
