//! Shows the worked rows of cells, predicates, words and what is kept of them, of tables and what a query asks of them, and of
//! the texts that are printed, behind each line of its input.
//!
//! A line is a word and what belongs to it. A row has `/` between two. Words are numbers with spaces between two of them. A
//! cell is a text, or a number behind `#`, with `;` between two. The parts of a table have `;` between two of them; in these
//! and in a cell's text `|` stands for the end of a line and `^` for a carriage return:
//!
//! - `row NAME` begins the rows of a rule;
//! - `number TEXT`: the number that is spelled so;
//! - `cells CELL;CELL..`: how each compares with its copy and with all of them;
//! - `lend CELL`: the cell, lent;
//! - `bytes TEXT TEXT`: whether the first is itself, and isn't the second; how it compares with that, and that with it;
//! - `sort ROWS as ROWS`: the rows of cells in their order, each with how it compares with the one beside it, whether it is
//!   that one, and how its copy compares with it;
//! - `flat WIDTH/WORDS/PLACES/PLACES..`: the rows of the words at these places, in their order;
//! - `picked WORDS/PLACES`: the words at these places;
//! - `keys ROWS`: how many different rows there are, and their order;
//! - `find ROW in ROWS`: the number of a row among the different ones, whether it is there, and the row of that number;
//! - `repeats`: how many different columns there are of a, b and a; of those printed in a, the best value and a, and how many
//!   columns these are;
//! - `places`: the places of b, a and b in a query that carries a and b;
//! - `holds PREDICATE`: whether a row of 5 and `ab` passes it;
//! - `weak SIDE PREDICATE as PREDICATE`: whether the weak filter of the first is the second, and whether each is exact;
//! - `part SIDE PREDICATE as PREDICATE`: whether the part of the first is the second;
//! - `copy PREDICATE`: whether a copy of a query with this filter is equal;
//! - `ranks TEXTS/TEXTS`: how many different texts the first are, the ranks of the second, and the texts of their places;
//! - `passes TEXTS/WORD`: whether the row with this rank passes `b LIKE 'x%'`;
//! - `pair TEXTS/WORD WORD`: whether the pair of rows with these ranks passes `b < c`;
//! - `table ROWS CELLS PARTS`: the table `t` that the parts are within this room, or why they are none;
//! - `table-places ROWS CELLS PARTS`: the words of its cells, and its texts;
//! - `last ROWS CELLS PARTS`: the words of the last of three rows, by the dictionary of its texts;
//! - `bits ROWS CELLS PARTS`: whether each of two rows passes `b LIKE 'x%'`, and whether the weak filter passes all;
//! - `asked-ranks TEXTS ROWS CELLS PARTS`: the ranks of these texts, with `,` between two of them, in the dictionary of
//!   `SELECT b FROM t WHERE b <> 'm' AND b LIKE 'q%'`;
//! - `answer NAMES/ROW/ROW..`: the text of an answer, whose names have `;` between two;
//! - `counts ROWS SENDS PRUNED FORWARDED STEPS`: the line of these counts;
//! - `report ROWS/FLOW/FLOW..`: the report of an open run, where a flow is `PASS WORKER ACKNOWLEDGED OF NUMBERS`, and `-` is
//!   no number.
//!
//! `predicates.rt` says how a predicate is written.
#![tactic(auto)]

mod asked;
mod cells;
mod flat;
mod keys;
mod lists;
mod places;
mod pred;
mod predicates;
mod printed;
mod ranks;
mod reading;
mod row_words;
mod tables;
mod word_cells;

use crate::asked::asked_ranks;
use crate::cells::{bytes, cells, lend, number, sort};
use crate::flat::{flat, words_picked};
use crate::keys::{find, keys};
use crate::places::{places, repeats};
use crate::pred::{copy, passed, side_part, weak_filter};
use crate::printed::{answer, counts, report};
use crate::ranks::ranks;
use crate::row_words::{bits, last};
use crate::tables::{table, table_places};
use crate::word_cells::{pair, passes};
use std::alloc::Global;

/// What a line of tables or of printed texts comes to.
fn table_shown(alloc: Global, word: &str, said: &str) -> anyhow::Result<String> {
    match word {
        "table" => table(alloc, said),
        "table-places" => table_places(alloc, said),
        "last" => last(alloc, said),
        "bits" => bits(alloc, said),
        "asked-ranks" => asked_ranks(alloc, said),
        "answer" => answer(alloc, said),
        "counts" => counts(alloc, said),
        "report" => report(alloc, said),
        _ => Ok(String::from_str(alloc, "no line of a row\n")?),
    }
}

/// What a line of predicates or of ranks comes to.
fn pred_shown(alloc: Global, word: &str, said: &str) -> anyhow::Result<String> {
    match word {
        "holds" => passed(alloc, said),
        "weak" => weak_filter(alloc, said),
        "part" => side_part(alloc, said),
        "copy" => copy(alloc, said),
        "ranks" => ranks(alloc, said),
        "passes" => passes(alloc, said),
        "pair" => pair(alloc, said),
        _ => table_shown(alloc, word, said),
    }
}

/// What a line comes to.
fn shown(alloc: Global, word: &str, said: &str) -> anyhow::Result<String> {
    match word {
        "row" => Ok(String::new(alloc)),
        "number" => number(alloc, said),
        "cells" => cells(alloc, said),
        "lend" => lend(alloc, said),
        "bytes" => bytes(alloc, said),
        "sort" => sort(alloc, said),
        "flat" => flat(alloc, said),
        "picked" => words_picked(alloc, said),
        "keys" => keys(alloc, said),
        "find" => find(alloc, said),
        "repeats" => repeats(alloc),
        "places" => places(alloc),
        _ => pred_shown(alloc, word, said),
    }
}

fn main(rt: HostRuntime) -> anyhow::Result<()> {
    let alloc = rt.alloc();
    for line in rt.lines(alloc) {
        let line = line?;
        let (word, said) = line.split_once(' ').unwrap_or((line.as_str(), ""));
        print!(rt; "{line}\n{}", shown(alloc, word, said)?)?;
    }
    Ok(())
}
