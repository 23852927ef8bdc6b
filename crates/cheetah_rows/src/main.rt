//! Shows the worked rows of whole calls, behind each line of its input: words, files, streams and what is said.
//!
//! A line is a word and what belongs to it. In a text `|` stands for the end of a line, and it stands between two words of a
//! command:
//!
//! - `row NAME` begins a row, without files and faults; `file`, `large`, `keep`, `shelf`, `out` and `err` add to it (`row.rt`);
//! - `run`, `bare`, `usage`, `begins` and `changed` run a command over the row's files (`runs.rt`, `traces.rt`);
//! - `watch` follows a run over the row's files step by step (`asking.rt`, `watching.rt`);
//! - `read`, `end` and `refuse` are of what a command does at its start and its end (`ends.rt`);
//! - `cheetah`, `pack` and `audit` read the words of that command, and `many` with words behind them (`words.rt`);
//! - `requested`, `drawn`, `command`, `front` and `summary` are of generated inputs (`generated.rt`);
//! - `lend`, `put` and `memory` call the row's shelf, its out, and a run over both (`outside.rt`);
//! - `streams`, `write`, `fill`, `remove`, `disk`, `print` and `over` are of files and streams of the system (`system.rt`).
#![tactic(auto)]

mod asking;
mod ends;
mod generated;
mod outside;
mod row;
mod runs;
mod system;
mod traces;
mod watching;
mod words;

use crate::asking::watched;
use crate::ends::{ended, read, refused};
use crate::generated::{command, drawn, front, requested, summed_up};
use crate::outside::{lent, memory, put};
use crate::row::Row;
use crate::runs::{bare, begins, run, usage};
use crate::system::{disk, fill, over, print, remove, streams, write};
use crate::traces::changed;
use crate::words::{Command, many, words};
use std::alloc::Global;

/// What a line of generated inputs, or of shelf and sinks, comes to.
fn parts_shown(alloc: Global, row: &Row, word: &str, said: &str) -> anyhow::Result<String> {
    match word {
        "requested" => requested(alloc, said),
        "drawn" => drawn(alloc, said),
        "command" => command(alloc, said),
        "front" => front(alloc, said),
        "summary" => summed_up(alloc, said),
        "lend" => lent(alloc, row, said),
        "put" => put(alloc, row, said),
        "memory" => memory(alloc, said),
        _ => Ok(String::from_str(alloc, "no line of a row\n")?),
    }
}

/// What a line of words, or of what is read and said, comes to.
fn calls_shown(alloc: Global, row: &mut Row, word: &str, said: &str) -> anyhow::Result<String> {
    match word {
        "run" => run(alloc, row, said),
        "bare" => bare(alloc, row, said),
        "usage" => usage(alloc, row, said),
        "begins" => begins(alloc, row, said),
        "changed" => changed(alloc, row, said),
        "watch" => watched(alloc, row, said),
        "read" => read(alloc, row, said),
        "end" => ended(alloc, row, said),
        "refuse" => refused(alloc, said),
        "cheetah" => words(alloc, Command::Cheetah, said),
        "pack" => words(alloc, Command::Pack, said),
        "audit" => words(alloc, Command::Audit, said),
        "many" => many(alloc, said),
        _ => parts_shown(alloc, row, word, said),
    }
}

/// What a line comes to.
fn shown(rt: &HostRuntime, row: &mut Row, word: &str, said: &str) -> anyhow::Result<String> {
    match word {
        "streams" => streams(rt),
        "write" => write(rt, said),
        "fill" => fill(rt, said),
        "remove" => remove(rt),
        "disk" => disk(rt, said),
        "print" => print(rt, said),
        "over" => over(rt, row, said),
        _ => calls_shown(rt.alloc(), row, word, said),
    }
}

fn main(rt: HostRuntime) -> anyhow::Result<()> {
    let alloc = rt.alloc();
    let mut row = Row::new(alloc);
    for line in rt.lines(alloc) {
        let line = line?;
        let (word, said) = line.split_once(' ').unwrap_or((line.as_str(), ""));
        if word == "row" {
            row = Row::new(alloc);
            println!(rt; "{line}")?;
        } else if !row.takes(alloc, word, said)? {
            println!(rt; "{line}")?;
            let text = shown(&rt, &mut row, word, said)?;
            print!(rt; "{text}")?;
        }
    }
    Ok(())
}
