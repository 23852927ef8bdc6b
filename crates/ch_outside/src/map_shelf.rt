ghost use Rattle.std.specs.Prelude.{◌≡◌, ◌≤◌, [], Some, map};
ghost use Rattle.std.specs.Option.{option_copied};
ghost use Rattle.ch_outside.specs.Faults.{StaysReliable};
ghost use Rattle.ch_outside.specs.MapShelf.{Answers, after_read, bytes_at, named};
ghost use Rattle.ch_outside.specs.Shelf.{Reads};

use crate::fault_plan::FaultPlan;
use crate::shelf::{Shelf, ShelfError};
use ch_cells::Bytes;
use std::alloc::Global;
use std::marker::Model;

/// Files in memory, whose calls fail where they are told to.
pub struct MapShelf {
    files: Vec<(String, Bytes)>,
    plan: FaultPlan,
}

impl Drop for MapShelf {
    fn drop(self) {
        let MapShelf { files: _, plan: _ } = self;
    }
}

impl Model for MapShelf {
    ghost use Rattle.std.specs.Prelude.{map};
    ghost use Rattle.ch_outside.specs.MapShelf.{FilesInMemory, named};

    ghost Value = { FilesInMemory };

    ghost view = { λ s. record { files = map named s.files.items; plan = s.plan } };
}

/// The first file of this name.
fn find<'a>(files: &'a [(String, Bytes)], name: &str) -> Option<&'a Bytes>
    ensures { option_copied result ≡ bytes_at (map named files.now) name.now }
{
    for file in files {
        if name == file.0.as_str() {
            return Some(&file.1);
        }
    }
    None
}

impl MapShelf {
    /// A shelf of these names with their bytes, where the n-th call of `read_all` fails for each n in
    /// `fail`, counted from 0. A name that stands twice has its first entry's bytes.
    pub fn new(files: Vec<(String, Bytes)>, fail: Vec<u32>) -> MapShelf
        ensures { result ≡ record {
          files = map named files.items;
          plan = record { fail = fail.items; calls = 0; faults = 0 };
        } }
    {
        MapShelf {
            files,
            plan: FaultPlan::new(fail),
        }
    }
}

impl Shelf for MapShelf {
    ghost told = { λ s. Some (bytes_at s.files) };

    ghost faults = { λ s. s.plan.faults };

    ghost reliable = { λ s. s.plan.fail ≡ [] };

    fn read_all(&mut self, alloc: Global, name: &str, limit: usize) -> Result<Bytes, ShelfError>
        ensures same { Some (bytes_at self.new.files) ≡ Some (bytes_at self.old.files) }
        ensures later { self.old.plan.faults ≤ self.new.plan.faults }
        ensures steady { StaysReliable (self.old.plan.fail ≡ []) (self.new.plan.fail ≡ [])
            self.old.plan.faults self.new.plan.faults }
        ensures reads { Reads (Some (bytes_at self.old.files)) name.now limit
            self.old.plan.faults self.new.plan.faults result }

        // The next two say all that a call does.
        ensures after { self.new ≡ after_read self.old }
        ensures answers { Answers self.old name.now limit result }
    {
        if self.plan.count_call() {
            return Err(ShelfError::Failed);
        }
        match find(&self.files, name) {
            Some(bytes) => {
                if limit < bytes.len() {
                    return Err(ShelfError::TooLarge { taken: limit + 1 });
                }
                match Bytes::from_slice(alloc, bytes.as_slice()) {
                    Ok(copy) => Ok(copy),
                    Err(_) => Err(ShelfError::Memory),
                }
            }
            None => Err(ShelfError::Missing),
        }
    }
}
