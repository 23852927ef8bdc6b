ghost use Rattle.std.specs.Prelude.{◌≡◌, ◌≤◌, All, IfOk, None, length, map, string_bytes};
ghost use Rattle.ch_command.specs.Call.{faults_of};
ghost use Rattle.ch_command.specs.Reading.{most_bytes};
ghost use Rattle.ch_command.specs.Verdict.{Fits, ReadsFiles};
ghost use Rattle.ch_outside.specs.Faults.{StaysReliable};
ghost use Rattle.cheetah_pack_meaning.specs.Meaning.{OfContents, command_of, files_of, others, queries_text};
ghost use Rattle.cheetah_words.specs.Words.{request_of};

use crate::answering::answer;
use ch_cells::{Bytes, Listed, Memory};
use ch_command::{Ending, Outcome, Verdict, read_files};
use ch_outside::Shelf;
use cheetah_inputs::{Refusal, names_in, read_shared};
use cheetah_pack_words::asked_in;
use cheetah_words::Asked;
use std::alloc::Global;

/// The text of the queries, which is read first, and the rest of what the files hold.
fn take_queries(contents: Listed<Bytes>) -> (Bytes, Listed<Bytes>)
    requires { 1 ≤ length contents }
    ensures text { result.0 ≡ queries_text contents }
    ensures others { result.1 ≡ others contents }
{
    let mut contents = contents.into_vec();
    let text = contents.remove(0);
    (text, Listed::from_vec(contents))
}

/// What the contents of the files come to.
fn judge(alloc: Global, asked: &Asked<'_>, contents: Listed<Bytes>) -> Result<Outcome, Memory>
    requires few { length asked.now.tables ≤ 64 }
    requires unscheduled { (request_of asked.now).schedule ≡ None }
    requires small { All (λ bytes. length bytes ≤ most_bytes) contents }
    requires there { length contents ≡ length (files_of (request_of asked.now)) }
    ensures { IfOk result (λ outcome. OfContents (request_of asked.now) contents outcome) }
{
    let (text, others) = take_queries(contents);
    match read_shared(alloc, asked, others) {
        Ok(shared) => answer(alloc, &shared, text.as_slice()),
        Err(Refusal::Line(line)) => Ok(Outcome::refused(alloc, Ending::Input, line)),
        Err(Refusal::Memory) => Err(Memory),
    }
}

/// The files that are read, in their order: that of the queries, the profile's, where it is named, and those of the tables.
fn files_in<'a>(alloc: Global, asked: &Asked<'a>) -> Result<Vec<&'a str>, Memory>
    ensures { IfOk result (λ names. map (λ name. name.now) names.items ≡ files_of (request_of asked.now)) }
{
    let mut names = names_in(alloc, asked)?;
    names.insert(0, asked.query)?;
    Ok(names)
}

/// Reads the files that are named.
fn read_named<F: Shelf>(
    alloc: Global,
    asked: &Asked<'_>,
    shelf: &mut F,
) -> Result<Listed<Bytes>, Verdict>
    ensures reads { ReadsFiles (F.told shelf.old) (faults_of F.faults shelf.old shelf.new) (files_of (request_of asked.now)) result }
    ensures same { F.told shelf.new ≡ F.told shelf.old }
    ensures later { F.faults shelf.old ≤ F.faults shelf.new }
    ensures steady { StaysReliable (F.reliable shelf.old) (F.reliable shelf.new) (F.faults shelf.old) (F.faults shelf.new) }
{
    let names = files_in(alloc, asked)?;
    read_files(alloc, shelf, names.as_slice())
}

/// What the command that the words give has to say. All that it reads is read here.
pub(crate) fn consider<F: Shelf>(alloc: Global, words: &Listed<String>, shelf: &mut F) -> Verdict
    ensures fits { Fits (F.told shelf.old) (faults_of F.faults shelf.old shelf.new) (command_of (map string_bytes words.now)) result }
    ensures same { F.told shelf.new ≡ F.told shelf.old }
    ensures later { F.faults shelf.old ≤ F.faults shelf.new }
    ensures steady { StaysReliable (F.reliable shelf.old) (F.reliable shelf.new) (F.faults shelf.old) (F.faults shelf.new) }
{
    let asked = match asked_in(alloc, words.as_slice()) {
        Ok(asked) => asked,
        Err(misuse) => return misuse.verdict(alloc),
    };
    match read_named(alloc, &asked, shelf) {
        Ok(contents) => Verdict::of(judge(alloc, &asked, contents)),
        Err(verdict) => verdict,
    }
}
