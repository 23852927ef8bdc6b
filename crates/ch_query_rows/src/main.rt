//! Shows what comes of query texts, behind each line of its input.
//!
//! A line is a word and what belongs to it:
//!
//! - `row NAME` begins the rows of a part;
//! - `query TEXT`: the text of the query that it is, or why it is none;
//! - `like NAME/PREFIX`: the text of a query that is made without one: `SELECT * FROM t` with the filter that the name is LIKE
//!   the prefix and a percent sign;
//! - `bind TEXT`: what binding the query to the tables of `tables.rt` gives: the names of the answer, the tables, their carried
//!   columns and the sum that is refused; or the check that refuses the query;
//! - `fold TEXT`: how many entries are kept where the rows of these tables are folded for the query, and the answer.
#![tactic(auto)]

mod arrivals;
mod bound;
mod folds;
mod queries;
mod tables;

ghost use Rattle.ch_bind.specs.Shapes.{AreShapes};

use crate::bound::bind_text;
use crate::folds::fold_text;
use crate::queries::{like_text, query_text};
use crate::tables::read_tables;
use ch_bind::{TableShape, shapes_of};
use ch_cells::{Listed, Memory};
use ch_tables::Table;
use std::alloc::Global;

/// What comes of a line that is answered by one line.
fn answer(
    alloc: Global,
    word: &str,
    said: &str,
    tables: &Listed<Table>,
    shapes: &Listed<TableShape>,
) -> anyhow::Result<String>
    requires { AreShapes shapes.now }
{
    match word {
        "query" => query_text(alloc, said.as_bytes()),
        "like" => like_text(alloc, said),
        "bind" => bind_text(alloc, said.as_bytes(), tables, shapes),
        _ => Ok(String::from_str(alloc, "no word of a row")?),
    }
}

fn main(rt: HostRuntime) -> anyhow::Result<()> {
    let alloc = rt.alloc();
    let tables = read_tables(alloc)?;
    if tables.len() > 64 {
        Err(Memory)?;
    }
    let shapes = shapes_of(alloc, tables.as_slice())?;
    for line in rt.lines(alloc) {
        let line = line?;
        let (word, said) = line.split_once(' ').unwrap_or((line.as_str(), ""));
        match word {
            "row" => println!(rt; "{line}")?,
            "fold" => {
                let answer = fold_text(alloc, said.as_bytes(), &tables, &shapes)?;
                print!(rt; "{line}\n{answer}")?;
            }
            _ => {
                let answer = answer(alloc, word, said, &tables, &shapes)?;
                println!(rt; "{line} => {answer}")?;
            }
        }
    }
    Ok(())
}
