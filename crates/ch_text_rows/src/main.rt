//! Reads texts of each kind, and writes what comes of each: queries, schedules, profiles, programs, traces. Reads and writes
//! packets, drives the two ends of a flow, and writes and checks traces along runs that are told beforehand.
//!
//! A line of the input is a word and what belongs to it. `row NAME` begins a row. Of packets and runs:
//!
//! - `spell WORDS` is a row with these words, as bytes, and `ack` an acknowledgement; bytes are in hexadecimal;
//! - `view BYTES` is the packet that the bytes are, or the field in which they are none, and `epoch N BYTES` the same with
//!   another epoch;
//! - `worker ROWS WINDOW; CALLS` is what each call of a worker answers;
//! - `master` is what a master of two workers answers;
//! - `told TRACE` tells what the run of the lines behind it notes, with `|` for the end of a line;
//! - `refused N` is what is said of line N;
//! - `drained N` is the trace of the told run, which stops behind N events;
//! - `checked N TRACE` is whether a trace is accepted along that run, and what is said.
//!
//! Each other word is followed by a text, and tells how it is read; `repeat N TEXT` puts a text so many times before that of the
//! next line. In these texts `|` stands for the end of a line, `^` for a carriage return, `~` for a tab, and `$` for a blank.
#![tactic(auto)]

mod ends;
mod lines;
mod packets;
mod profiles;
mod programs;
mod queries;
mod runs;
mod schedules;
mod told;
mod traces;

use crate::ends::{master, worker};
use crate::lines::{fields, is_said_in, lines};
use crate::packets::{ack, epoch, spell, view_of};
use crate::profiles::{default_settings, hash, settings};
use crate::programs::{cut_at, op_line, program, stage, tree};
use crate::queries::{keyword, terminals, tokens};
use crate::runs::{checked, drained, refused};
use crate::schedules::{schedule, steps};
use crate::traces::{trace_cut, trace_line};
use std::alloc::Global;

/// Adds the bytes of a text.
fn push_text(bytes: &mut Vec<u8>, text: &str) -> anyhow::Result<()> {
    for byte in text.as_bytes() {
        bytes.push(match *byte {
            b'|' => b'\n',
            b'^' => b'\r',
            b'~' => b'\t',
            b'$' => b' ',
            other => other,
        })?;
    }
    Ok(())
}

/// Adds the bytes of `N TEXT`.
fn push_repeated(bytes: &mut Vec<u8>, said: &str) -> anyhow::Result<()> {
    if let Some((count, text)) = said.split_once(' ') {
        for _ in 0..count.parse::<u32>()? {
            push_text(bytes, text)?;
        }
    }
    Ok(())
}

/// What comes of a query text or of its words.
fn of_query(alloc: Global, word: &str, text: &[u8]) -> anyhow::Result<String> {
    match word {
        "tokens" => tokens(alloc, text),
        "keyword" => keyword(alloc, text),
        _ => terminals(alloc, text),
    }
}

/// What comes of a program text, of the lines of a stage, or of one line.
fn of_program(alloc: Global, word: &str, text: &[u8]) -> anyhow::Result<String> {
    match word {
        "program" => program(alloc, text),
        "stage" => stage(alloc, text),
        "tree" => tree(alloc, text),
        "op" => op_line(alloc, text),
        _ => cut_at(alloc, text),
    }
}

/// What comes of a profile text or of a hash.
fn of_profile(alloc: Global, word: &str, text: &[u8]) -> anyhow::Result<String> {
    match word {
        "profile" => settings(alloc, text),
        "default" => default_settings(alloc),
        _ => hash(alloc, text),
    }
}

/// What comes of lines.
fn of_lines(alloc: Global, word: &str, text: &[u8]) -> anyhow::Result<String> {
    match word {
        "lines" => lines(alloc, text),
        "fields" => fields(alloc, text),
        "said" => is_said_in(alloc, text),
        "schedule" => schedule(alloc, text),
        "steps" => steps(alloc, text),
        "trace" => trace_line(alloc, text),
        "trace-cut" => trace_cut(alloc, text),
        _ => Ok(String::from_str(alloc, "no word of a row")?),
    }
}

/// What comes of a text.
fn of_text(alloc: Global, word: &str, text: &[u8]) -> anyhow::Result<String> {
    match word {
        "tokens" | "keyword" | "terminals" => of_query(alloc, word, text),
        "program" | "stage" | "tree" | "op" | "cut" => of_program(alloc, word, text),
        "profile" | "default" | "hash" => of_profile(alloc, word, text),
        _ => of_lines(alloc, word, text),
    }
}

/// What comes of a packet, or of an end of a flow.
fn of_flow(alloc: Global, word: &str, said: &str) -> anyhow::Result<String> {
    match word {
        "spell" => spell(alloc, said),
        "ack" => ack(alloc),
        "view" => view_of(alloc, said),
        "epoch" => epoch(alloc, said),
        "worker" => worker(alloc, said),
        _ => master(alloc),
    }
}

/// What comes of a trace along the told run.
fn of_run(alloc: Global, told: &str, word: &str, said: &str) -> anyhow::Result<String> {
    match word {
        "refused" => refused(alloc, said),
        "drained" => drained(alloc, told, said),
        _ => checked(alloc, told, said),
    }
}

/// What belongs to the next line: a text before its own, and the told run.
#[derive(Drop)]
struct Before {
    text: Vec<u8>,
    told: String,
}

fn answer(alloc: Global, before: &mut Before, word: &str, said: &str) -> anyhow::Result<String> {
    match word {
        "spell" | "ack" | "view" | "epoch" | "worker" | "master" => of_flow(alloc, word, said),
        "refused" | "drained" | "checked" => of_run(alloc, before.told.as_str(), word, said),
        _ => {
            push_text(&mut before.text, said)?;
            let answer = of_text(alloc, word, before.text.as_slice())?;
            before.text.clear();
            Ok(answer)
        }
    }
}

fn main(rt: HostRuntime) -> anyhow::Result<()> {
    let alloc = rt.alloc();
    let mut before = Before {
        text: Vec::new(alloc),
        told: String::new(alloc),
    };
    for line in rt.lines(alloc) {
        let line = line?;
        let (word, said) = line.split_once(' ').unwrap_or((line.as_str(), ""));
        match word {
            "row" => println!(rt; "{line}")?,
            "repeat" => {
                push_repeated(&mut before.text, said)?;
                println!(rt; "{line}")?;
            }
            "told" => {
                before.told = String::from_str(alloc, said)?;
                println!(rt; "{line}")?;
            }
            _ => {
                let answer = answer(alloc, &mut before, word, said)?;
                println!(rt; "{line} => {answer}")?;
            }
        }
    }
    Ok(())
}
