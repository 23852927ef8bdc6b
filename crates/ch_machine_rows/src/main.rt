//! Measures, refuses and runs programs of the register machine, and drives a switch of two workers with packets and restarts,
//! and a pipe with one query after the other.
//!
//! A line of the input is a word and what belongs to it. `row NAME` begins a row, and `program LINES` is the program of the
//! lines behind it: what stands between a text's first and its last line, with `|` for the end of a line.
//!
//! - `needs` is what the program needs;
//! - `verify` is what is refused in it under the default profile, and `limits WIDTH CELLS WORDS STAGES OPS` under these limits;
//! - `run ROWS` is which rows are pruned (`p`) and which kept (`k`), and all cells behind them; then all cells when they are
//!   cleared, and the verdicts on the same rows again. A row is numbers with commas between them, or `-`;
//! - `access OP; ACCESS` is what is refused in a program with one op and one access to an array of 4 entries of one cell;
//! - `op WORD OP` is what the op assigns where the row's word 3 is this one;
//! - `update FIRST WORD UPDATE` is what a cell with that first value becomes where the row's word 3 is this one;
//! - `switch CALLS` is what a switch answers to each call, where its program prunes a row whose word is the last one. A call is
//!   `row PASS WORKER NUMBER WORD`, `fin PASS WORKER NUMBER`, `expected PASS WORKER`, `epoch`, or `restart PASS E F`, which
//!   expects these numbers of the workers, with `all` behind it where each row is kept from then on;
//! - `pipe QUERIES` is what becomes of the rows of queries over one pipe, whose program does the same for the rows of query 7
//!   alone. A query is its number and `: ` and the words of its rows.
#![tactic(auto)]

mod ends;
mod meets;
mod packets;
mod queries;
mod refused;
mod runs;
mod text;

use crate::ends::{op, update};
use crate::meets::switch;
use crate::queries::pipe;
use crate::refused::{access, limited, needs, verified};
use crate::runs::run;
use std::alloc::Global;

fn answer(alloc: Global, lines: &str, word: &str, said: &str) -> anyhow::Result<String> {
    match word {
        "needs" => needs(alloc, lines),
        "verify" => verified(alloc, lines),
        "limits" => limited(alloc, lines, said),
        "run" => run(alloc, lines, said),
        "access" => access(alloc, said),
        "op" => op(alloc, said),
        "update" => update(alloc, said),
        "switch" => switch(alloc, said),
        "pipe" => pipe(alloc, said),
        _ => Ok(String::from_str(alloc, "no word of a row")?),
    }
}

fn main(rt: HostRuntime) -> anyhow::Result<()> {
    let alloc = rt.alloc();
    let mut lines = String::new(alloc);
    for line in rt.lines(alloc) {
        let line = line?;
        let (word, said) = line.split_once(' ').unwrap_or((line.as_str(), ""));
        match word {
            "row" => println!(rt; "{line}")?,
            "program" => {
                println!(rt; "{line}")?;
                lines = String::from_str(alloc, said)?;
            }
            _ => {
                let answer = answer(alloc, lines.as_str(), word, said)?;
                println!(rt; "{line} => {answer}")?;
            }
        }
    }
    Ok(())
}
