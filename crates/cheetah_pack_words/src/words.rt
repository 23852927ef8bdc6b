ghost use Rattle.std.specs.Prelude.{◌≡◌, ◌≤◌, Err, IfOk, None, map, length, string_bytes, option_map};
ghost use Rattle.cheetah_words.specs.Words.{request_of};
ghost use Rattle.cheetah_pack_words.specs.Words.{Asks, profile_of, wish_of};
ghost use Rattle.cheetah_pack_words.specs.Words.Wish.{Misused};

use ch_cells::{Bytes, Memory};
use ch_command::Misuse;
use cheetah_words::{Asked, tables_in};
use std::alloc::Global;

/// The fewest words: the program's name, the two files and a table's.
const FEWEST_WORDS: usize = 4;

const USAGE: &[u8] = b"usage: cheetah_pack QUERIES PROFILE NAME=FILE\n";

fn usage(alloc: Global) -> Misuse
    ensures { Asks Misused (Err result) }
{
    match Bytes::from_slice(alloc, USAGE) {
        Ok(line) => Misuse::Line(line),
        Err(Memory) => Misuse::Memory,
    }
}

/// The profile's file, where it isn't the default one.
fn profile_in(word: &str) -> Option<&str>
    ensures { option_map (λ file. file.now) result ≡ profile_of word.entry.now }
{
    if word == "-" { None } else { Some(word) }
}

fn strs_of<'a>(alloc: Global, words: &'a [String]) -> Result<Vec<&'a str>, Memory>
    ensures { IfOk result (λ strs. map (λ s. s.now) strs.items ≡ map string_bytes words.entry.now) }
{
    let mut strs = Vec::new(alloc);
    for word in words {
        strs.push(word.as_str())?;
    }
    Ok(strs)
}

/// What the words ask for. The program's name is the first of them. The file of the queries stands as the query.
pub fn asked_in<'a>(alloc: Global, words: &'a [String]) -> Result<Asked<'a>, Misuse>
    ensures asks { Asks (wish_of (map string_bytes words.entry.now)) result }
    ensures few { IfOk result (λ asked. length asked.tables ≤ 64) }
    ensures unscheduled { IfOk result (λ asked. (request_of asked).schedule ≡ None) }
{
    if words.len() < FEWEST_WORDS {
        return Err(usage(alloc));
    }
    let tables = strs_of(alloc, &words[3..])?;
    match tables_in(alloc, tables.as_slice()) {
        Ok(tables) => Ok(Asked {
            query: words[1].as_str(),
            profile: profile_in(words[2].as_str()),
            schedule: None,
            plan: false,
            tables,
        }),
        Err(Misuse::Line(_)) => Err(usage(alloc)),
        Err(Misuse::Memory) => Err(Misuse::Memory),
    }
}
