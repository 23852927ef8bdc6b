ghost use Rattle.std.specs.Prelude.{◌≡◌, ◌≤◌, Err, IfOk, map, length, string_bytes, option_map};
ghost use Rattle.cheetah_audit_words.specs.Words.{Asks, profile_of, task_of, wish_of};
ghost use Rattle.cheetah_audit_words.specs.Words.Wish.{Misused};

use ch_cells::{Bytes, Memory};
use ch_command::Misuse;
use cheetah_words::{Asked, tables_in};
use std::alloc::Global;

/// What is to be done.
#[derive(Clone, Copy)]
pub enum Task {
    /// A run is written down.
    Write,
    /// A trace is checked.
    Check,
}

/// What the words of the command ask for.
pub struct Errand<'a> {
    pub task: Task,
    /// The file of the schedule or of the trace stands as its schedule's.
    pub asked: Asked<'a>,
}

impl Drop for Errand<'_> {
    fn drop(self) {
        let Errand { task: _, asked: _ } = self;
    }
}

/// The fewest words: the program's name, the task, the query, the two files and a table's.
const FEWEST_WORDS: usize = 6;

const USAGE: &[u8] = b"usage: cheetah_audit write or check, QUERY, FILE, PROFILE, NAME=FILE\n";

fn usage(alloc: Global) -> Misuse
    ensures { Asks Misused (Err result) }
{
    match Bytes::from_slice(alloc, USAGE) {
        Ok(line) => Misuse::Line(line),
        Err(Memory) => Misuse::Memory,
    }
}

fn task_in(word: &str) -> Option<Task>
    ensures { result ≡ task_of word.now }
{
    if word == "write" {
        Some(Task::Write)
    } else if word == "check" {
        Some(Task::Check)
    } else {
        None
    }
}

/// The profile's file, where it isn't the default one.
fn profile_in(word: &str) -> Option<&str>
    ensures { option_map (λ file. file.now) result ≡ profile_of word.entry.now }
{
    if word == "-" { None } else { Some(word) }
}

fn strs_of<'a>(alloc: Global, words: &'a [String]) -> Result<Vec<&'a str>, Memory>
    ensures { IfOk result (λ strs. map (λ s. s.now) strs.items ≡ map string_bytes words.entry.now) }
{
    let mut strs = Vec::new(alloc);
    for word in words {
        strs.push(word.as_str())?;
    }
    Ok(strs)
}

/// What the words ask for. The program's name is the first of them.
pub fn errand_in<'a>(alloc: Global, words: &'a [String]) -> Result<Errand<'a>, Misuse>
    ensures asks { Asks (wish_of (map string_bytes words.entry.now)) result }
    ensures few { IfOk result (λ errand. length errand.asked.tables ≤ 64) }
{
    if words.len() < FEWEST_WORDS {
        return Err(usage(alloc));
    }
    let task = match task_in(words[1].as_str()) {
        Some(task) => task,
        None => return Err(usage(alloc)),
    };
    let tables = strs_of(alloc, &words[5..])?;
    match tables_in(alloc, tables.as_slice()) {
        Ok(tables) => Ok(Errand {
            task,
            asked: Asked {
                query: words[2].as_str(),
                profile: profile_in(words[4].as_str()),
                schedule: Some(words[3].as_str()),
                plan: false,
                tables,
            },
        }),
        Err(Misuse::Line(_)) => Err(usage(alloc)),
        Err(Misuse::Memory) => Err(Misuse::Memory),
    }
}
