//! Words, and what they ask for.
//!
//! - `cheetah WORDS`: the query's text, the files of profile and schedule, whether the plan is printed, and the parts;
//! - `pack WORDS`: the files of the queries and of the profile, and the parts;
//! - `audit WORDS`: the task, the files of the query, of schedule or trace and of the profile, and the parts;
//! - `many COUNT COMMAND WORDS`: whether that command takes these words with so many behind them that each name a part.
use crate::row::{cut, words_of};
use cheetah_audit_words::{Errand, Task, errand_in};
use cheetah_words::{Asked, TableWord};
use std::alloc::Global;

/// Whose words they are.
#[derive(Clone, Copy)]
pub(crate) enum Command {
    Cheetah,
    Pack,
    Audit,
}

fn push_parts(alloc: Global, text: &mut String, parts: &[TableWord<'_>]) -> anyhow::Result<()> {
    for part in parts {
        let (name, file) = (part.name, part.file);
        text.push_str(format!(in alloc; " {name}:{file}")?.as_str())?;
    }
    text.push('\n')?;
    Ok(())
}

fn of_cheetah(alloc: Global, asked: &Asked<'_>) -> anyhow::Result<String> {
    let query = asked.query;
    let profile = asked.profile.unwrap_or("-");
    let schedule = asked.schedule.unwrap_or("-");
    let plan = asked.plan;
    let mut text = format!(in alloc; "{query} {profile} {schedule} {plan}")?;
    push_parts(alloc, &mut text, asked.tables.as_slice())?;
    Ok(text)
}

fn of_pack(alloc: Global, asked: &Asked<'_>) -> anyhow::Result<String> {
    let queries = asked.query;
    let profile = asked.profile.unwrap_or("-");
    let mut text = format!(in alloc; "{queries} {profile}")?;
    push_parts(alloc, &mut text, asked.tables.as_slice())?;
    Ok(text)
}

fn of_audit(alloc: Global, errand: &Errand<'_>) -> anyhow::Result<String> {
    let task = match errand.task {
        Task::Write => "write",
        Task::Check => "check",
    };
    let query = errand.asked.query;
    let file = errand.asked.schedule.unwrap_or("none");
    let profile = errand.asked.profile.unwrap_or("-");
    let mut text = format!(in alloc; "{task} {query} {file} {profile}")?;
    push_parts(alloc, &mut text, errand.asked.tables.as_slice())?;
    Ok(text)
}

/// What the words ask for.
fn asked(alloc: Global, command: Command, words: &[String]) -> anyhow::Result<String> {
    let refused = String::from_str(alloc, "refused\n")?;
    match command {
        Command::Cheetah => match cheetah_words::asked_in(alloc, words) {
            Ok(asked) => of_cheetah(alloc, &asked),
            Err(_) => Ok(refused),
        },
        Command::Pack => match cheetah_pack_words::asked_in(alloc, words) {
            Ok(asked) => of_pack(alloc, &asked),
            Err(_) => Ok(refused),
        },
        Command::Audit => match errand_in(alloc, words) {
            Ok(errand) => of_audit(alloc, &errand),
            Err(_) => Ok(refused),
        },
    }
}

pub(crate) fn words(alloc: Global, command: Command, said: &str) -> anyhow::Result<String> {
    let words = words_of(alloc, said)?;
    asked(alloc, command, words.as_slice())
}

fn command_of(name: &str) -> Command {
    match name {
        "cheetah" => Command::Cheetah,
        "pack" => Command::Pack,
        _ => Command::Audit,
    }
}

pub(crate) fn many(alloc: Global, said: &str) -> anyhow::Result<String> {
    let (count, said) = cut(said, " ");
    let (name, said) = cut(said, " ");
    let mut words = words_of(alloc, said)?;
    for _ in 0..count.parse::<u32>()? {
        words.push(String::from_str(alloc, "t=f")?)?;
    }
    let found = asked(alloc, command_of(name), words.as_slice())?;
    let taken = found.as_str() != "refused\n";
    Ok(format!(in alloc; "taken {taken}\n")?)
}
