ghost use Rattle.std.specs.Prelude.{◌≡◌, ◌≤◌, All, IfOk, length, map, string_bytes};
ghost use Rattle.ch_command.specs.Call.{faults_of};
ghost use Rattle.ch_command.specs.Reading.{most_bytes};
ghost use Rattle.ch_command.specs.Verdict.{Fits, ReadsFiles};
ghost use Rattle.ch_outside.specs.Faults.{StaysReliable};
ghost use Rattle.cheetah_inputs.specs.Inputs.{OfContents, names_of};
ghost use Rattle.cheetah_words.specs.Words.{request_of};
ghost use Rattle.cheetah.specs.Answering.{Answers};
ghost use Rattle.cheetah.specs.Result.{command_of};

use crate::answering::answer;
use ch_cells::{Bytes, Listed, Memory};
use ch_command::{Ending, Outcome, Verdict, read_files};
use ch_outside::Shelf;
use cheetah_inputs::{Refusal, names_in, read_inputs};
use cheetah_words::{Asked, asked_in};
use std::alloc::Global;

/// What the contents of the files come to.
fn judge(alloc: Global, asked: &Asked<'_>, contents: Listed<Bytes>) -> Result<Outcome, Memory>
    requires few { length asked.now.tables ≤ 64 }
    requires small { All (λ bytes. length bytes ≤ most_bytes) contents }
    ensures { IfOk result (λ outcome. OfContents (request_of asked.now) (Answers asked.now.plan) contents outcome) }
{
    match read_inputs(alloc, asked, contents) {
        Ok(inputs) => answer(alloc, &inputs, asked.plan),
        Err(Refusal::Line(line)) => Ok(Outcome::refused(alloc, Ending::Input, line)),
        Err(Refusal::Memory) => Err(Memory),
    }
}

/// Reads the files that are named: the profile's, the schedule's, and those of the tables.
fn read_named<F: Shelf>(
    alloc: Global,
    asked: &Asked<'_>,
    shelf: &mut F,
) -> Result<Listed<Bytes>, Verdict>
    ensures reads { ReadsFiles (F.told shelf.old) (faults_of F.faults shelf.old shelf.new) (names_of (request_of asked.now)) result }
    ensures same { F.told shelf.new ≡ F.told shelf.old }
    ensures later { F.faults shelf.old ≤ F.faults shelf.new }
    ensures steady { StaysReliable (F.reliable shelf.old) (F.reliable shelf.new) (F.faults shelf.old) (F.faults shelf.new) }
{
    let names = names_in(alloc, asked)?;
    read_files(alloc, shelf, names.as_slice())
}

/// What the command that the words give has to say. All that it reads is read here.
pub fn consider<F: Shelf>(alloc: Global, words: &Listed<String>, shelf: &mut F) -> Verdict
    ensures fits { Fits (F.told shelf.old) (faults_of F.faults shelf.old shelf.new) (command_of (map string_bytes words.now)) result }
    ensures same { F.told shelf.new ≡ F.told shelf.old }
    ensures later { F.faults shelf.old ≤ F.faults shelf.new }
    ensures steady { StaysReliable (F.reliable shelf.old) (F.reliable shelf.new) (F.faults shelf.old) (F.faults shelf.new) }
{
    let asked = match asked_in(alloc, words.as_slice()) {
        Ok(asked) => asked,
        Err(misuse) => return misuse.verdict(alloc),
    };
    match read_named(alloc, &asked, shelf) {
        Ok(contents) => Verdict::of(judge(alloc, &asked, contents)),
        Err(verdict) => verdict,
    }
}
