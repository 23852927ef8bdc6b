ghost use Rattle.std.specs.Prelude.{◌≡◌, ◌≤◌, ℕ, Option};
ghost use Rattle.ch_outside.specs.Faults.{StaysReliable};
ghost use Rattle.ch_outside.specs.Shelf.{Files, Reads};

use ch_cells::Bytes;
use std::alloc::Global;
use thiserror::Error;

/// Why a file wasn't read.
#[derive(Debug, Clone, Copy, PartialEq, Eq, Error)]
pub enum ShelfError {
    /// No file has this name. This is no fault.
    #[error("no such file")]
    Missing,

    /// The outside failed. It is counted.
    #[error("the file could not be read")]
    Failed,

    /// The file has more bytes than the limit, of which one more was taken.
    #[error("more bytes than the limit: {taken} were taken")]
    TooLarge { taken: usize },

    #[error("out of memory")]
    Memory,
}

/// Files by their names.
pub trait Shelf {
    /// The bytes of each file, where the shelf tells them.
    ghost told: { Self → Option Files };

    /// How many faults there were. A count at the end of a `u64` stays there.
    ghost faults: { Self → ℕ };

    /// That no call fails from here on. A shelf that promises no such thing has `⊥` here.
    ghost reliable: { Self → Type 0 };

    /// Reads a file whole, of at most `limit` bytes.
    fn read_all(&mut self, alloc: Global, name: &str, limit: usize) -> Result<Bytes, ShelfError>
        ensures same { told self.new ≡ told self.old }
        ensures later { faults self.old ≤ faults self.new }
        ensures steady { StaysReliable (reliable self.old) (reliable self.new)
            (faults self.old) (faults self.new) }
        ensures reads { Reads (told self.old) name.now limit
            (faults self.old) (faults self.new) result };
}
