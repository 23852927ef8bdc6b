ghost use Rattle.std.specs.Prelude.{◌≡◌, ◌≤◌, ◌⊎◌, map};
ghost use Rattle.ch_outside.specs.Faults.{StaysReliable};
ghost use Rattle.ch_command.specs.Call.{faults_of};
ghost use Rattle.ch_command.specs.Command.{refused};
ghost use Rattle.ch_command.specs.Lines.{missing_line, too_large_line, read_fault_line};
ghost use Rattle.ch_command.specs.Reading.{limit_after};
ghost use Rattle.ch_command.specs.Verdict.{ReadsFile, ReadsFiles};

use crate::outcome::{Ending, Outcome};
use crate::verdict::Verdict;
use ch_cells::{Bytes, Listed};
use ch_outside::{Shelf, ShelfError};
use std::alloc::Global;

/// The most bytes of a file.
const MOST_BYTES: usize = 67_108_864;

/// The most bytes of all files of a command.
const MOST_BYTES_IN_ALL: usize = 536_870_912;

/// The most bytes that the next file may have, after so many bytes were read.
fn limit_after(taken: usize) -> usize
    ensures { result ≡ limit_after taken }
{
    MOST_BYTES.min(MOST_BYTES_IN_ALL.saturating_sub(taken))
}

fn missing(alloc: Global, file: &str) -> Verdict
    ensures { (result ≡ Verdict.Said (refused Ending.Input (missing_line file.now))) ⊎ (result ≡ Verdict.Memory) }
{
    match format!(in alloc; "input: file {file} missing\n") {
        Ok(line) => Verdict::Said(Outcome::refused(
            alloc,
            Ending::Input,
            Bytes::from_vec(line.into_bytes()),
        )),
        Err(_) => Verdict::Memory,
    }
}

fn too_large(alloc: Global, file: &str) -> Verdict
    ensures { (result ≡ Verdict.Said (refused Ending.Input (too_large_line file.now))) ⊎ (result ≡ Verdict.Memory) }
{
    match format!(in alloc; "input: file {file} too large\n") {
        Ok(line) => Verdict::Said(Outcome::refused(
            alloc,
            Ending::Input,
            Bytes::from_vec(line.into_bytes()),
        )),
        Err(_) => Verdict::Memory,
    }
}

fn read_fault(alloc: Global, file: &str) -> Verdict
    ensures { (result ≡ Verdict.ReadFault (read_fault_line file.now)) ⊎ (result ≡ Verdict.Memory) }
{
    match format!(in alloc; "read fault: {file}\n") {
        Ok(line) => Verdict::ReadFault(Bytes::from_vec(line.into_bytes())),
        Err(_) => Verdict::Memory,
    }
}

/// Reads a file of at most `limit` bytes, or says why there is none.
fn read_file<F: Shelf>(
    alloc: Global,
    shelf: &mut F,
    file: &str,
    limit: usize,
) -> Result<Bytes, Verdict>
    ensures reads { ReadsFile (F.told shelf.old) (faults_of F.faults shelf.old shelf.new) file.now limit result }
    ensures same { F.told shelf.new ≡ F.told shelf.old }
    ensures later { F.faults shelf.old ≤ F.faults shelf.new }
    ensures steady { StaysReliable (F.reliable shelf.old) (F.reliable shelf.new) (F.faults shelf.old) (F.faults shelf.new) }
{
    match shelf.read_all(alloc, file, limit) {
        Ok(bytes) => Ok(bytes),
        Err(ShelfError::Missing) => Err(missing(alloc, file)),
        Err(ShelfError::TooLarge { taken: _ }) => Err(too_large(alloc, file)),
        Err(ShelfError::Failed) => Err(read_fault(alloc, file)),
        Err(ShelfError::Memory) => Err(Verdict::Memory),
    }
}

/// Reads files in turn, each within the limit that the ones before it leave, or says why one of them is missing.
pub fn read_files<F: Shelf>(
    alloc: Global,
    shelf: &mut F,
    names: &[&str],
) -> Result<Listed<Bytes>, Verdict>
    ensures reads { ReadsFiles (F.told shelf.old) (faults_of F.faults shelf.old shelf.new) (map (λ s. s.now) names.now) result }
    ensures same { F.told shelf.new ≡ F.told shelf.old }
    ensures later { F.faults shelf.old ≤ F.faults shelf.new }
    ensures steady { StaysReliable (F.reliable shelf.old) (F.reliable shelf.new) (F.faults shelf.old) (F.faults shelf.new) }
{
    let mut contents = Listed::new(alloc);
    let mut taken = 0;
    for name in names {
        match read_file(alloc, shelf, name, limit_after(taken)) {
            Ok(bytes) => {
                taken += bytes.len();
                contents.push(bytes)?;
            }
            Err(verdict) => return Err(verdict),
        }
    }
    Ok(contents)
}
