ghost use Rattle.std.specs.Prelude.{◌≡◌, IfOk, codes, false, map, option_map, string_bytes};
ghost use Rattle.clap.specs.Words.{all_of, app_of, first_of, found_of, rows_of, rule_of};
ghost use Rattle.cheetah_words.specs.Parsed as spec;
ghost use Rattle.cheetah_words.specs.Parsed.{Parses, cheetah_app, is_planned};

use ch_cells::Bytes;
use ch_command::Misuse;
use clap::error::ErrorKind;
use clap::{Arg, ArgAction, ArgMatches, Command, Error};
use std::alloc::{AllocError, Global};

fn query<'a>(alloc: Global) -> Arg<'a>
    ensures rule { rule_of result ≡ spec.query_rule }
    ensures local { result.global ≡ false }
{
    Arg::new(alloc, "query").long("query").required(true)
}

fn profile<'a>(alloc: Global) -> Arg<'a>
    ensures rule { rule_of result ≡ spec.profile_rule }
    ensures local { result.global ≡ false }
{
    Arg::new(alloc, "profile").long("profile")
}

fn schedule<'a>(alloc: Global) -> Arg<'a>
    ensures rule { rule_of result ≡ spec.schedule_rule }
    ensures local { result.global ≡ false }
{
    Arg::new(alloc, "schedule").long("schedule")
}

fn plan<'a>(alloc: Global) -> Arg<'a>
    ensures rule { rule_of result ≡ spec.plan_rule }
    ensures local { result.global ≡ false }
{
    Arg::new(alloc, "plan")
        .long("plan")
        .action(ArgAction::SetTrue)
}

fn table<'a>(alloc: Global) -> Arg<'a>
    ensures rule { rule_of result ≡ spec.table_rule }
    ensures local { result.global ≡ false }
{
    Arg::new(alloc, "table").required(true).num_args(1..)
}

fn command<'a>(alloc: Global) -> Result<Command<'a>, AllocError>
    ensures { IfOk result (λ c. app_of c ≡ cheetah_app) }
{
    let with_query = Command::new(alloc, "cheetah").arg(query(alloc))?;
    let with_profile = with_query.arg(profile(alloc))?;
    let with_schedule = with_profile.arg(schedule(alloc))?;
    let with_plan = with_schedule.arg(plan(alloc))?;
    let with_table = with_plan.arg(table(alloc))?;
    Ok(with_table)
}

/// The text that the error renders.
fn usage(alloc: Global, error: &Error) -> Misuse {
    match format!(in alloc; "{error}") {
        Ok(text) => Misuse::Line(Bytes::from_vec(text.into_bytes())),
        Err(_) => Misuse::Memory,
    }
}

/// Reads the words as the command's.
pub(crate) fn parse_words<'a>(alloc: Global, words: &'a [String]) -> Result<ArgMatches<'a>, Misuse>
    ensures { Parses (map string_bytes words.entry.now) result }
{
    let command = match command(alloc) {
        Ok(command) => command,
        Err(_) => return Err(Misuse::Memory),
    };
    match command.try_get_matches_from(words) {
        Ok(matches) => Ok(matches),
        Err(error) => match error.kind() {
            ErrorKind::OutOfMemory => Err(Misuse::Memory),
            _ => Err(usage(alloc, &error)),
        },
    }
}

pub(crate) fn query_in<'a>(matches: &ArgMatches<'a>) -> Option<&'a str>
    ensures { option_map (λ s. s.now) result ≡ first_of (codes "query") (rows_of (found_of matches.now)) }
{
    matches.get_str("query")
}

pub(crate) fn profile_in<'a>(matches: &ArgMatches<'a>) -> Option<&'a str>
    ensures { option_map (λ s. s.now) result ≡ first_of (codes "profile") (rows_of (found_of matches.now)) }
{
    matches.get_str("profile")
}

pub(crate) fn schedule_in<'a>(matches: &ArgMatches<'a>) -> Option<&'a str>
    ensures { option_map (λ s. s.now) result ≡ first_of (codes "schedule") (rows_of (found_of matches.now)) }
{
    matches.get_str("schedule")
}

fn plan_text<'a>(matches: &ArgMatches<'a>) -> Option<&'a str>
    ensures { option_map (λ s. s.now) result ≡ first_of (codes "plan") (rows_of (found_of matches.now)) }
{
    matches.get_str("plan")
}

/// Whether the flag is given.
pub(crate) fn plan_in(matches: &ArgMatches<'_>) -> bool
    ensures { result ≡ is_planned (first_of (codes "plan") (rows_of (found_of matches.now))) }
{
    match plan_text(matches) {
        Some(text) => text == "true",
        None => false,
    }
}

pub(crate) fn table_words<'b, 'a>(matches: &'b ArgMatches<'a>) -> Option<&'b [&'a str]>
    ensures { option_map (λ s. map (λ v. v.now) s.now) result ≡ all_of (codes "table") (rows_of (found_of matches.now)) }
{
    matches.get_strs("table")
}
