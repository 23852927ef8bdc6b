ghost use Rattle.std.specs.Prelude.{◌≡◌, ◌≤◌, IfOk, length, map, string_bytes};
ghost use Rattle.cheetah_words.specs.Words.{Asks, wish_of};

use crate::parsed::{parse_words, plan_in, profile_in, query_in, schedule_in, table_words};
use crate::table_word::{TableWord, tables_in};
use ch_cells::{Bytes, Listed};
use ch_command::Misuse;
use std::alloc::Global;

/// What the words of the command ask for.
pub struct Asked<'a> {
    /// The query's text.
    pub query: &'a str,
    /// The profile's file, where one is named.
    pub profile: Option<&'a str>,
    /// The schedule's file, where one is named.
    pub schedule: Option<&'a str>,
    /// Whether the plan is printed in place of the answer.
    pub plan: bool,
    /// The parts of the tables, in the order of their words.
    pub tables: Listed<TableWord<'a>>,
}

impl Drop for Asked<'_> {
    fn drop(self) {
        let Asked {
            query: _,
            profile: _,
            schedule: _,
            plan: _,
            tables: _,
        } = self;
    }
}

/// What the words ask for. The program's name is the first of them.
pub fn asked_in<'a>(alloc: Global, words: &'a [String]) -> Result<Asked<'a>, Misuse>
    ensures asks { Asks (wish_of (map string_bytes words.entry.now)) result }
    ensures few { IfOk result (λ asked. length asked.tables ≤ 64) }
{
    if words.is_empty() {
        return Err(Misuse::Line(Bytes::from_slice(alloc, b"usage: no words\n")?));
    }
    let matches = parse_words(alloc, words)?;
    let tables = tables_in(alloc, table_words(&matches).unwrap_or(&[]))?;
    Ok(Asked {
        query: query_in(&matches).unwrap_or(""),
        profile: profile_in(&matches),
        schedule: schedule_in(&matches),
        plan: plan_in(&matches),
        tables,
    })
}
