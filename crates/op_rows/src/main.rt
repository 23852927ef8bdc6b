//! Shows operators with what they need and the programs that they emit, and how queries are planned.
//!
//! A line of the input is a word and a name, and `row NAME` begins a row:
//!
//! - `operator NAME` is an operator of that kind, whose numbers stand in `operators.rt`;
//! - `part NAME` is what some operators have in common, as `parts.rt` makes it;
//! - `plan KIND SETTINGS` is a query of that kind (`plans.rt`) under a profile, with `|` for the end of a line: how many passes
//!   its plan has, or the limit that refuses it.
#![tactic(auto)]

mod operators;
mod parts;
mod plans;

use crate::operators::operator;
use crate::parts::part;
use crate::plans::plan_by;
use std::alloc::Global;

fn answer(alloc: Global, word: &str, said: &str) -> anyhow::Result<String> {
    match word {
        "operator" => operator(alloc, said),
        "part" => part(alloc, said),
        "plan" => plan_by(alloc, said),
        _ => Ok(String::from_str(alloc, "no word of a row")?),
    }
}

fn main(rt: HostRuntime) -> anyhow::Result<()> {
    let alloc = rt.alloc();
    for line in rt.lines(alloc) {
        let line = line?;
        let (word, said) = line.split_once(' ').unwrap_or((line.as_str(), ""));
        if word == "row" {
            println!(rt; "{line}")?;
        } else {
            println!(rt; "{line} => {}", answer(alloc, word, said)?)?;
        }
    }
    Ok(())
}
