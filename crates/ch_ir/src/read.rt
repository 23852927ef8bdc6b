ghost use Rattle.std.specs.Prelude.{◌≡◌, ◌<◌, ◌-◌, ◌^◌, length};
ghost use Rattle.std.specs.List.{list_all};
ghost use Rattle.ch_ir.specs.Profile.{is_number, line_said, profile_of, setting_named, setting_said, with_value, within_range};
ghost use Rattle.ch_ir.specs.Given.{said_of, Gives};
ghost use Rattle.ch_cells.specs.Number.{is_digit, number_of};
ghost use Rattle.ch_lines.specs.Lines.{fields_of};

use crate::profile::{Profile, default_profile};
use crate::setting::{Range, Setting};
use ch_cells::read_number;
use ch_lines::{is_said, next_field, next_line};
use thiserror::Error;

/// Why a line of a profile text is refused. Where several hold, the first is answered.
#[derive(Clone, Copy, Debug, PartialEq, Eq)]
pub enum ProfileWhy {
    /// The line isn't a name and a number.
    NotASetting,
    UnknownName,
    /// An earlier line gives this setting.
    Repeated,
    /// The second field is no number without sign, in the spelling of cells.
    BadNumber,
    OutOfRange,
}

/// Why a profile text is refused.
#[derive(Clone, Copy, Debug, PartialEq, Eq, Error)]
pub enum ProfileError {
    /// The first bad line, counted from 1.
    #[error("line {line} of the profile is bad: {why:?}")]
    Bad { line: u32, why: ProfileWhy },
}

fn is_digits(text: &[u8]) -> bool
    ensures { result ≡ list_all is_digit text.now }
{
    text.iter().all(|byte| byte.is_ascii_digit())
}

/// Whether the text is a number without sign.
fn is_number(text: &[u8]) -> bool
    ensures { result ≡ is_number text.now }
{
    match text {
        [] => false,
        [b'0', _, ..] => false,
        _ => is_digits(text),
    }
}

/// The number that a text spells, where it lies in the range.
fn number_within(range: Range, text: &[u8]) -> Option<u32>
    ensures { result ≡ within_range range (number_of text.now) }
{
    match read_number(text) {
        Some(n) if i64::from(range.low) <= n && n <= i64::from(range.high) => Some(n as u32),
        _ => None,
    }
}

/// What the lines so far have given.
#[derive(Drop)]
struct Reading {
    profile: Profile,
    given: [bool; 17],
}

/// Gives a setting its value.
fn give(reading: &mut Reading, setting: Setting, value: u32)
    ensures { said_of reading.new ≡ with_value (said_of reading.old) setting value }
{
    setting.put(&mut reading.profile, value);
    reading.given[setting.number()] = true;
}

/// Reads a name and its number.
fn read_setting(reading: &mut Reading, name: &[u8], number: &[u8]) -> Result<(), ProfileWhy>
    ensures { Gives (setting_said (said_of reading.old) (setting_named name.now) number.now) result (said_of reading.new) }
{
    let Some(setting) = Setting::named(name) else {
        return Err(ProfileWhy::UnknownName);
    };
    if reading.given[setting.number()] {
        return Err(ProfileWhy::Repeated);
    }
    if !is_number(number) {
        return Err(ProfileWhy::BadNumber);
    }
    let Some(value) = number_within(setting.range(), number) else {
        return Err(ProfileWhy::OutOfRange);
    };
    give(reading, setting, value);
    Ok(())
}

/// Reads a line.
fn read_line(reading: &mut Reading, line: &[u8]) -> Result<(), ProfileWhy>
    ensures { Gives (line_said (said_of reading.old) (fields_of line.now)) result (said_of reading.new) }
{
    if !is_said(line) {
        return Ok(());
    }
    let Some(name) = next_field(line) else {
        return Err(ProfileWhy::NotASetting);
    };
    let Some(number) = next_field(name.rest) else {
        return Err(ProfileWhy::NotASetting);
    };
    if next_field(number.rest).is_some() {
        return Err(ProfileWhy::NotASetting);
    }
    read_setting(reading, name.first, number.first)
}

/// Reads a profile text, from the default settings on. Takes no memory.
#[tactic(auto, unfolding(crate::specs::Profile::profile_of))]
pub fn read_profile(text: &[u8]) -> Result<Profile, ProfileError>
    requires { length text.now < 2 ^ 32 - 1 }
    ensures { result ≡ profile_of text.now }
{
    let mut reading = Reading {
        profile: default_profile(),
        given: [false; 17],
    };
    let mut rest = text;
    let mut line: u32 = 1;
    while let Some(cut) = next_line(rest) {
        if let Err(why) = read_line(&mut reading, cut.first) {
            return Err(ProfileError::Bad { line, why });
        }
        rest = cut.rest;
        line += 1;
    }
    Ok(reading.profile)
}
