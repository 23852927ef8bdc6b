ghost use Rattle.std.specs.Prelude.{◌≡◌, ◌≤◌, IfOk, length, map, option_map, string_bytes};
ghost use Rattle.cheetah_words.specs.Tables.{bad_word_line, part_of, part_word, too_many_line};
ghost use Rattle.cheetah_words.specs.Words.{AsksTables};

use ch_cells::{Bytes, Listed, Memory};
use ch_command::Misuse;
use std::alloc::Global;

/// A word that names a part of a table: `NAME=FILE`.
#[derive(Clone, Copy)]
pub struct TableWord<'a> {
    pub name: &'a str,
    pub file: &'a str,
}

/// The most table words of a command.
const MOST_TABLE_WORDS: usize = 64;

/// The name and the file of a word, which is cut at its first `=`. Neither is empty.
fn table_in(word: &str) -> Option<TableWord<'_>>
    ensures { option_map part_word result ≡ part_of word.now }
{
    match word.split_once('=') {
        Some((name, file)) => {
            if name.is_empty() || file.is_empty() {
                None
            } else {
                Some(TableWord { name, file })
            }
        }
        None => None,
    }
}

fn too_many(alloc: Global, count: usize) -> Result<Bytes, Memory>
    ensures { IfOk result (λ line. line ≡ too_many_line count) }
{
    let line = format!(in alloc; "usage: {count} table words, at most 64\n")?;
    Ok(Bytes::from_vec(line.into_bytes()))
}

fn bad_word(alloc: Global, at: usize) -> Result<Bytes, Memory>
    ensures { IfOk result (λ line. line ≡ bad_word_line at) }
{
    let line = format!(in alloc; "usage: table word {at}\n")?;
    Ok(Bytes::from_vec(line.into_bytes()))
}

/// The parts that the words name, at most 64, or the line that refuses them.
pub fn tables_in<'a>(alloc: Global, words: &[&'a str]) -> Result<Listed<TableWord<'a>>, Misuse>
    ensures asks { AsksTables (map (λ s. s.now) words.now) result }
    ensures few { IfOk result (λ tables. length tables ≤ 64) }
{
    if words.len() > MOST_TABLE_WORDS {
        return Err(Misuse::Line(too_many(alloc, words.len())?));
    }
    let mut tables = Listed::new(alloc);
    for at in 0..words.len() {
        match table_in(words[at]) {
            Some(table) => tables.push(table)?,
            None => return Err(Misuse::Line(bad_word(alloc, at)?)),
        }
    }
    Ok(tables)
}
