ghost use Rattle.std.specs.Prelude.{◌≡◌, ◌≢◌, ◌≤◌, None};
ghost use Rattle.ch_outside.specs.Faults.{StaysReliable};
ghost use Rattle.ch_outside.specs.Shelf.{Reads, ReadsToEnd, faults_after};

use crate::shelf::{Shelf, ShelfError};
use ch_cells::Bytes;
use std::alloc::Global;
use std::fs;
use std::io::{ErrorKind, Read};
use std::marker::Model;
use std::rt::Files;

/// The files of the system, which doesn't tell what they hold.
#[derive(Drop)]
pub struct DiskShelf<'a, R: Files> {
    rt: &'a R,
    faults: u64,
}

/// Contracts see the count of its faults.
impl<'a, R: Files> Model for DiskShelf<'a, R> {
    ghost use Rattle.std.specs.Prelude.{ℕ};

    ghost Value = { ℕ };

    ghost view = { λ s. s.faults };
}

impl<'a, R: Files> DiskShelf<'a, R> {
    pub fn new(rt: &'a R) -> DiskShelf<'a, R>
        ensures { result ≡ 0 }
    {
        DiskShelf { rt, faults: 0 }
    }
}

/// Why a file wasn't opened.
fn unopened(kind: ErrorKind) -> ShelfError
    ensures missing { kind ≡ ErrorKind.NotFound → result ≡ ShelfError.Missing }
    ensures memory { kind ≡ ErrorKind.OutOfMemory → result ≡ ShelfError.Memory }
    ensures failed { kind ≢ ErrorKind.NotFound → kind ≢ ErrorKind.OutOfMemory → result ≡ ShelfError.Failed }
{
    match kind {
        ErrorKind::NotFound => ShelfError::Missing,
        ErrorKind::OutOfMemory => ShelfError::Memory,
        _ => ShelfError::Failed,
    }
}

/// Reads to the end of the file, but no more than one byte past the limit.
fn read_to_end<F: Read + Drop>(alloc: Global, file: F, limit: usize) -> Result<Bytes, ShelfError>
    ensures { ReadsToEnd (F.remaining file) limit result }
{
    let mut bytes = Vec::new(alloc);
    let mut front = file.take((limit as u64).saturating_add(1));
    match front.read_to_end(&mut bytes) {
        Ok(_) => {
            if limit < bytes.len() {
                return Err(ShelfError::TooLarge { taken: limit + 1 });
            }
            Ok(Bytes::from_vec(bytes))
        }
        Err(error) => match error.kind() {
            ErrorKind::OutOfMemory => Err(ShelfError::Memory),
            _ => Err(ShelfError::Failed),
        },
    }
}

impl<R: Files> Shelf for DiskShelf<'_, R> {
    ghost told = { λ _. None };

    ghost faults = { λ s. s };

    ghost reliable = { λ _. ⊥ };

    fn read_all(&mut self, alloc: Global, name: &str, limit: usize) -> Result<Bytes, ShelfError>
        ensures later { self.old ≤ self.new }
        ensures steady { StaysReliable ⊥ ⊥ self.old self.new }
        ensures reads { Reads None name.now limit self.old self.new result }
        ensures counted { self.new ≡ faults_after result self.old }
    {
        let answer = match fs::open(self.rt, name) {
            Ok(file) => read_to_end(alloc, file, limit),
            Err(error) => Err(unopened(error.kind())),
        };
        if let Err(ShelfError::Failed) = &answer {
            self.faults = self.faults.saturating_add(1);
        }
        answer
    }
}
