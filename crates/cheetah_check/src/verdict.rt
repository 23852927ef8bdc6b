ghost use Rattle.std.specs.Prelude.{◌≡◌, ◌<◌, ◌≤◌, ◌-◌, ◌^◌, All, IfOk, length, map, string_bytes};
ghost use Rattle.ch_command.specs.Call.{faults_of};
ghost use Rattle.ch_command.specs.Reading.{most_bytes};
ghost use Rattle.ch_command.specs.Verdict.{Fits, ReadsFiles};
ghost use Rattle.ch_ir.specs.Measure.{most_ops};
ghost use Rattle.ch_ir.specs.Profile.{profile_of};
ghost use Rattle.ch_outside.specs.Faults.{StaysReliable};
ghost use Rattle.cheetah_check.specs.Result.{OfContents, OfText, UnderProfile, command_of, names_of, verdict_on};
ghost use Rattle.cheetah_check.specs.Words.{profile_name};

use crate::words::{Asked, asked_in};
use ch_asm::{AsmError, read_program};
use ch_cells::{Bytes, Listed, Memory};
use ch_command::{Ending, Outcome, Verdict, read_files};
use ch_ir::{Profile, Program, default_profile, read_profile};
use ch_messages::{accepted_line, profile_line, program_line, refused_line};
use ch_outside::Shelf;
use ch_verify::{measure, verify};
use std::alloc::Global;

/// The verdict on a program.
fn judge(alloc: Global, program: Program, profile: &Profile) -> Result<Outcome, Memory>
    requires stages { length program.stages < 2 ^ 32 - 1 }
    requires ops { most_ops program.stages < 2 ^ 32 - 1 }
    ensures { IfOk result (λ outcome. outcome ≡ verdict_on profile.now program) }
{
    let sizes = measure(&program);
    match verify(alloc, program, profile) {
        Ok(checked) => {
            drop(checked);
            Ok(Outcome::answered(alloc, accepted_line(alloc, sizes)?))
        }
        Err(refused) => {
            let line = refused_line(alloc, refused)?;
            Ok(Outcome::refused(alloc, Ending::Rejected, line))
        }
    }
}

/// The verdict on a program text.
fn judge_text(alloc: Global, text: &[u8], profile: &Profile) -> Result<Outcome, Memory>
    requires { length text.now ≤ most_bytes }
    ensures { IfOk result (λ outcome. OfText profile.now text.now outcome) }
{
    match read_program(alloc, text) {
        Ok(program) => judge(alloc, program, profile),
        Err(AsmError::Line { line }) => {
            let line = program_line(alloc, line)?;
            Ok(Outcome::refused(alloc, Ending::Input, line))
        }
        Err(AsmError::Memory) => Err(Memory),
    }
}

/// The verdict on a program text under a profile text.
fn judge_under(alloc: Global, settings: &[u8], text: &[u8]) -> Result<Outcome, Memory>
    requires settings { length settings.now ≤ most_bytes }
    requires text { length text.now ≤ most_bytes }
    ensures { IfOk result (λ outcome. UnderProfile settings.now text.now outcome) }
{
    match read_profile(settings) {
        Ok(profile) => judge_text(alloc, text, &profile),
        Err(error) => {
            let line = profile_line(alloc, error)?;
            Ok(Outcome::refused(alloc, Ending::Input, line))
        }
    }
}

/// The verdict on what the files hold: the profile, where one is named, and the program.
fn judge_contents(alloc: Global, contents: &Listed<Bytes>) -> Result<Outcome, Memory>
    requires some { 0 < length contents.now }
    requires two { length contents.now ≤ 2 }
    requires small { All (λ bytes. length bytes ≤ most_bytes) contents.now }
    ensures { IfOk result (λ outcome. OfContents contents.now outcome) }
{
    match contents.as_slice() {
        [text] => judge_text(alloc, text.as_slice(), &default_profile()),
        [settings, text] => judge_under(alloc, settings.as_slice(), text.as_slice()),
        _ => unreachable!(),
    }
}

/// Reads the files that are named, the profile's first.
fn read_named<F: Shelf>(
    alloc: Global,
    asked: Asked<'_>,
    shelf: &mut F,
) -> Result<Listed<Bytes>, Verdict>
    ensures reads { ReadsFiles (F.told shelf.old) (faults_of F.faults shelf.old shelf.new) (names_of (profile_name asked.entry) asked.entry.program.now) result }
    ensures same { F.told shelf.new ≡ F.told shelf.old }
    ensures later { F.faults shelf.old ≤ F.faults shelf.new }
    ensures steady { StaysReliable (F.reliable shelf.old) (F.reliable shelf.new) (F.faults shelf.old) (F.faults shelf.new) }
{
    match asked.profile {
        Some(profile) => read_files(alloc, shelf, &[profile, asked.program]),
        None => read_files(alloc, shelf, &[asked.program]),
    }
}

/// What the command that the words give has to say. All that it reads is read here.
pub fn consider<F: Shelf>(alloc: Global, words: &Listed<String>, shelf: &mut F) -> Verdict
    ensures fits { Fits (F.told shelf.old) (faults_of F.faults shelf.old shelf.new) (command_of (map string_bytes words.now)) result }
    ensures same { F.told shelf.new ≡ F.told shelf.old }
    ensures later { F.faults shelf.old ≤ F.faults shelf.new }
    ensures steady { StaysReliable (F.reliable shelf.old) (F.reliable shelf.new) (F.faults shelf.old) (F.faults shelf.new) }
{
    let asked = match asked_in(alloc, words.as_slice()) {
        Ok(asked) => asked,
        Err(misuse) => return misuse.verdict(alloc),
    };
    match read_named(alloc, asked, shelf) {
        Ok(contents) => Verdict::of(judge_contents(alloc, &contents)),
        Err(verdict) => verdict,
    }
}
