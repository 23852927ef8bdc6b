ghost use Rattle.std.specs.Prelude.{◌≡◌, ◌≤◌, All, IfOk, IsSome, length, map, string_bytes};
ghost use Rattle.ch_command.specs.Call.{faults_of};
ghost use Rattle.ch_command.specs.Reading.{most_bytes};
ghost use Rattle.ch_command.specs.Verdict.{Fits, ReadsFiles};
ghost use Rattle.ch_outside.specs.Faults.{StaysReliable};
ghost use Rattle.cheetah_audit_meaning.specs.Meaning.{OfErrand, other_contents, trace_text};
ghost use Rattle.cheetah_audit_words.specs.declared.words.Task.TheVariants as task;
ghost use Rattle.cheetah_inputs.specs.Inputs.{names_of};
ghost use Rattle.cheetah_words.specs.Words.{request_of};
ghost use Rattle.cheetah_audit.specs.Result.{command_of, runs};

use crate::errands::{check_errand, write_errand};
use ch_cells::{Bytes, Listed, Memory};
use ch_command::{Ending, Outcome, Verdict, read_files};
use ch_outside::Shelf;
use cheetah_audit_words::{Errand, Task, errand_in};
use cheetah_inputs::{Refusal, names_in, read_inputs};
use cheetah_words::Asked;
use std::alloc::Global;

/// A run is written.
fn judge_run(alloc: Global, asked: &Asked<'_>, contents: Listed<Bytes>) -> Result<Outcome, Memory>
    requires few { length asked.now.tables ≤ 64 }
    requires small { All (λ bytes. length bytes ≤ most_bytes) contents }
    ensures { IfOk result (λ outcome. OfErrand runs task.Write (request_of asked.now) contents outcome) }
{
    match read_inputs(alloc, asked, contents) {
        Ok(inputs) => write_errand(alloc, &inputs),
        Err(Refusal::Line(line)) => Ok(Outcome::refused(alloc, Ending::Input, line)),
        Err(Refusal::Memory) => Err(Memory),
    }
}

/// The trace among what the files hold, which stands behind the profile where one is named, and the rest of them.
fn take_trace(asked: &Asked<'_>, contents: Listed<Bytes>) -> (Bytes, Listed<Bytes>)
    requires named { IsSome (request_of asked.now).schedule }
    requires there { length contents ≡ length (names_of (request_of asked.now)) }
    ensures trace { result.0 ≡ trace_text (request_of asked.now) contents }
    ensures others { result.1 ≡ other_contents (request_of asked.now) contents }
{
    let mut contents = contents.into_vec();
    let place = if asked.profile.is_some() { 1 } else { 0 };
    let trace = contents.remove(place);
    (trace, Listed::from_vec(contents))
}

/// A trace is checked, which stands where a run names its schedule.
fn judge_trace(
    alloc: Global,
    asked: &mut Asked<'_>,
    contents: Listed<Bytes>,
) -> Result<Outcome, Memory>
    requires few { length asked.old.tables ≤ 64 }
    requires small { All (λ bytes. length bytes ≤ most_bytes) contents }
    requires named { IsSome (request_of asked.old).schedule }
    requires there { length contents ≡ length (names_of (request_of asked.old)) }
    ensures { IfOk result (λ outcome. OfErrand runs task.Check (request_of asked.old) contents outcome) }
{
    let (trace, others) = take_trace(asked, contents);
    asked.schedule = None;
    match read_inputs(alloc, asked, others) {
        Ok(inputs) => check_errand(alloc, &inputs, trace.as_slice()),
        Err(Refusal::Line(line)) => Ok(Outcome::refused(alloc, Ending::Input, line)),
        Err(Refusal::Memory) => Err(Memory),
    }
}

/// What the contents of the files come to.
fn judge(alloc: Global, errand: &mut Errand<'_>, contents: Listed<Bytes>) -> Result<Outcome, Memory>
    requires few { length errand.old.asked.tables ≤ 64 }
    requires small { All (λ bytes. length bytes ≤ most_bytes) contents }
    requires named { IsSome (request_of errand.old.asked).schedule }
    requires there { length contents ≡ length (names_of (request_of errand.old.asked)) }
    ensures { IfOk result (λ outcome. OfErrand runs errand.old.task (request_of errand.old.asked) contents outcome) }
{
    match errand.task {
        Task::Write => judge_run(alloc, &errand.asked, contents),
        Task::Check => judge_trace(alloc, &mut errand.asked, contents),
    }
}

/// Reads the files that are named: the profile's, that of the schedule or the trace, and those of the tables.
fn read_named<F: Shelf>(
    alloc: Global,
    asked: &Asked<'_>,
    shelf: &mut F,
) -> Result<Listed<Bytes>, Verdict>
    ensures reads { ReadsFiles (F.told shelf.old) (faults_of F.faults shelf.old shelf.new) (names_of (request_of asked.now)) result }
    ensures same { F.told shelf.new ≡ F.told shelf.old }
    ensures later { F.faults shelf.old ≤ F.faults shelf.new }
    ensures steady { StaysReliable (F.reliable shelf.old) (F.reliable shelf.new) (F.faults shelf.old) (F.faults shelf.new) }
{
    let names = names_in(alloc, asked)?;
    read_files(alloc, shelf, names.as_slice())
}

/// What the command that the words give has to say. All that it reads is read here.
pub(crate) fn consider<F: Shelf>(alloc: Global, words: &Listed<String>, shelf: &mut F) -> Verdict
    ensures fits { Fits (F.told shelf.old) (faults_of F.faults shelf.old shelf.new) (command_of (map string_bytes words.now)) result }
    ensures same { F.told shelf.new ≡ F.told shelf.old }
    ensures later { F.faults shelf.old ≤ F.faults shelf.new }
    ensures steady { StaysReliable (F.reliable shelf.old) (F.reliable shelf.new) (F.faults shelf.old) (F.faults shelf.new) }
{
    let mut errand = match errand_in(alloc, words.as_slice()) {
        Ok(errand) => errand,
        Err(misuse) => return misuse.verdict(alloc),
    };
    match read_named(alloc, &errand.asked, shelf) {
        Ok(contents) => Verdict::of(judge(alloc, &mut errand, contents)),
        Err(verdict) => verdict,
    }
}
