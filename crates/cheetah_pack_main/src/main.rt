//! The program: the command over the files and the standard streams of the system.
#![tactic(auto)]

use ch_cells::Listed;
use ch_command::refuse_words;
use ch_outside::{DiskShelf, StdSink};
use cheetah_pack::cheetah_pack;
use std::io;
use std::process::ExitCode;

const USAGE: &[u8] = b"usage: cheetah_pack QUERIES PROFILE NAME=FILE\n";

fn words_of(rt: &HostRuntime) -> io::Result<Listed<String>> {
    let words: Vec<String> = std::env::args(rt)?.collect(rt.alloc())?;
    Ok(Listed::from_vec(words))
}

fn main(rt: HostRuntime) -> ExitCode {
    let mut out = StdSink::out(&rt);
    let mut err = StdSink::err(&rt);
    let status = match words_of(&rt) {
        Ok(words) => cheetah_pack(
            rt.alloc(),
            &words,
            &mut DiskShelf::new(&rt),
            &mut out,
            &mut err,
        ),
        Err(error) => refuse_words(&mut err, error.kind(), USAGE).code(),
    };
    ExitCode::from(status)
}
