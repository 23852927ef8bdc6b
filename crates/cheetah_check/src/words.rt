ghost use Rattle.std.specs.Prelude.{◌≡◌, ◌≢◌, ◌⊎◌, [], IfOk, codes, false, map, option_map, string_bytes};
ghost use Rattle.clap.specs.Words.{app_of, first_of, found_of, rows_of, rule_of};
ghost use Rattle.cheetah_check.specs.Words.{Asks, Parses, check_app, profile_rule, program_rule, wish_of};

use ch_cells::Bytes;
use ch_command::Misuse;
use clap::error::ErrorKind;
use clap::{Arg, ArgMatches, Command, Error};
use std::alloc::{AllocError, Global};

/// What the words of the command ask for.
#[derive(Clone, Copy)]
pub struct Asked<'a> {
    /// The profile's file, where one is named.
    pub profile: Option<&'a str>,
    pub program: &'a str,
}

fn profile<'a>(alloc: Global) -> Arg<'a>
    ensures rule { rule_of result ≡ profile_rule }
    ensures local { result.global ≡ false }
{
    Arg::new(alloc, "profile").long("profile")
}

fn program<'a>(alloc: Global) -> Arg<'a>
    ensures rule { rule_of result ≡ program_rule }
    ensures local { result.global ≡ false }
{
    Arg::new(alloc, "program").required(true)
}

fn command<'a>(alloc: Global) -> Result<Command<'a>, AllocError>
    ensures { IfOk result (λ c. app_of c ≡ check_app) }
{
    let with_profile = Command::new(alloc, "cheetah_check").arg(profile(alloc))?;
    let with_program = with_profile.arg(program(alloc))?;
    Ok(with_program)
}

/// The text that the error renders.
fn usage(alloc: Global, error: &Error) -> Misuse {
    match format!(in alloc; "{error}") {
        Ok(text) => Misuse::Line(Bytes::from_vec(text.into_bytes())),
        Err(_) => Misuse::Memory,
    }
}

/// Reads the words as the command's.
fn parse_words<'a>(alloc: Global, words: &'a [String]) -> Result<ArgMatches<'a>, Misuse>
    ensures { Parses (map string_bytes words.entry.now) result }
{
    let command = match command(alloc) {
        Ok(command) => command,
        Err(_) => return Err(Misuse::Memory),
    };
    match command.try_get_matches_from(words) {
        Ok(matches) => Ok(matches),
        Err(error) => match error.kind() {
            ErrorKind::OutOfMemory => Err(Misuse::Memory),
            _ => Err(usage(alloc, &error)),
        },
    }
}

fn profile_in<'a>(matches: &ArgMatches<'a>) -> Option<&'a str>
    ensures { option_map (λ s. s.now) result ≡ first_of (codes "profile") (rows_of (found_of matches.now)) }
{
    matches.get_str("profile")
}

fn program_in<'a>(matches: &ArgMatches<'a>) -> Option<&'a str>
    ensures { option_map (λ s. s.now) result ≡ first_of (codes "program") (rows_of (found_of matches.now)) }
{
    matches.get_str("program")
}

/// What the words ask for. The program's name is the first of them.
pub fn asked_in<'a>(alloc: Global, words: &'a [String]) -> Result<Asked<'a>, Misuse>
    ensures { Asks (wish_of (map string_bytes words.entry.now)) result }
{
    if words.is_empty() {
        return Err(Misuse::Line(Bytes::from_slice(alloc, b"usage: no words\n")?));
    }
    let matches = parse_words(alloc, words)?;
    Ok(Asked {
        profile: profile_in(&matches),
        program: program_in(&matches).unwrap_or(""),
    })
}
