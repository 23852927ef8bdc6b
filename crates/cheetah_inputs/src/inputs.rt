ghost use Rattle.std.specs.Prelude.{◌≡◌, ◌≤◌, All, IfOk, IfSome, None, length, map, option_map};
ghost use Rattle.ch_command.specs.Reading.{most_bytes};
ghost use Rattle.cheetah_words.specs.Words.{request_of};
ghost use Rattle.cheetah_inputs.specs.Inputs.{ReadsInputs, behind, first_text, names_of};
ghost use Rattle.cheetah_inputs.specs.Shared.{ReadsShared};

use crate::parts::name_texts;
use crate::question::read_question;
use crate::refusal::Refusal;
use crate::settings::{profile_of, schedule_of};
use crate::tables::read_tables;
use ch_cells::{Bytes, Listed, Memory};
use ch_ir::Profile;
use ch_pred::Bound;
use ch_schedule::Schedule;
use ch_tables::{Room, Table};
use cheetah_words::Asked;
use std::alloc::Global;
use std::collections::VecDeque;

/// How much the tables of a command may hold.
const ROOM: Room = Room {
    rows: 4_000_000,
    cells: 32_000_000,
};

/// What the files of a command and its query's text give.
#[derive(Drop)]
pub struct Inputs {
    pub profile: Profile,
    pub schedule: Schedule,
    /// In the order of their first words.
    pub tables: Listed<Table>,
    pub bound: Bound,
}

/// Takes the first of the texts, where it is that of a named file.
fn take_first(file: Option<&str>, texts: &mut VecDeque<Bytes>) -> Option<Bytes>
    requires { All (λ text. length text ≤ most_bytes) texts.old.items }
    ensures text { result ≡ first_text (option_map (λ name. name.now) file.entry) texts.old.items }
    ensures rest { texts.new.items ≡ behind (option_map (λ name. name.now) file.entry) texts.old.items }
    ensures short { IfSome result (λ text. length text ≤ most_bytes) }
    ensures others { All (λ text. length text ≤ most_bytes) texts.new.items }
{
    match file {
        Some(_) => texts.pop_front(),
        None => None,
    }
}

/// The files that are read, in their order: those of profile and schedule, where they are named, and those of the tables.
pub fn names_in<'a>(alloc: Global, asked: &Asked<'a>) -> Result<Vec<&'a str>, Memory>
    ensures { IfOk result (λ names. map (λ name. name.now) names.items ≡ names_of (request_of asked.now)) }
{
    let mut names = Vec::new(alloc);
    if let Some(file) = asked.profile {
        names.push(file)?;
    }
    if let Some(file) = asked.schedule {
        names.push(file)?;
    }
    for table in asked.tables.as_slice() {
        names.push(table.file)?;
    }
    Ok(names)
}

fn bytes_in(text: &Option<Bytes>) -> Option<&[u8]>
    ensures { option_map (λ text. text.now) result ≡ text.now }
{
    match text {
        Some(text) => Some(text.as_slice()),
        None => None,
    }
}

/// Reads what the files hold: the profile, the schedule and the tables, in this order, and then the query; or says which is
/// the first that is none.
pub fn read_inputs(
    alloc: Global,
    asked: &Asked<'_>,
    contents: Listed<Bytes>,
) -> Result<Inputs, Refusal>
    requires few { length asked.now.tables ≤ 64 }
    requires small { All (λ bytes. length bytes ≤ most_bytes) contents }
    ensures { ReadsInputs (request_of asked.now) contents result }
{
    let mut texts = VecDeque::from(contents.into_vec());
    let profile_text = take_first(asked.profile, &mut texts);
    let schedule_text = take_first(asked.schedule, &mut texts);
    let parts = name_texts(alloc, asked.tables.as_slice(), texts)?;
    let profile = profile_of(alloc, bytes_in(&profile_text))?;
    let schedule = schedule_of(alloc, bytes_in(&schedule_text))?;
    let tables = read_tables(alloc, parts, ROOM)?;
    match read_question(alloc, asked.query.as_bytes(), &tables) {
        Ok(bound) => Ok(Inputs {
            profile,
            schedule,
            tables,
            bound,
        }),
        Err(why) => Err(why),
    }
}

/// What several queries of a command share.
#[derive(Drop)]
pub struct Shared {
    pub profile: Profile,
    /// In the order of their first words.
    pub tables: Listed<Table>,
}

/// Reads what the files of a command without a schedule hold, but for its queries: the profile, and then the tables; or says
/// which is the first that is none.
pub fn read_shared(
    alloc: Global,
    asked: &Asked<'_>,
    contents: Listed<Bytes>,
) -> Result<Shared, Refusal>
    requires few { length asked.now.tables ≤ 64 }
    requires small { All (λ bytes. length bytes ≤ most_bytes) contents }
    requires unscheduled { (request_of asked.now).schedule ≡ None }
    ensures reads { ReadsShared (request_of asked.now) contents result }
    ensures few { IfOk result (λ shared. length shared.tables ≤ 64) }
{
    let mut texts = VecDeque::from(contents.into_vec());
    let text = take_first(asked.profile, &mut texts);
    let named = name_texts(alloc, asked.tables.as_slice(), texts)?;
    let profile = profile_of(alloc, bytes_in(&text))?;
    let tables = read_tables(alloc, named, ROOM)?;
    Ok(Shared { profile, tables })
}
