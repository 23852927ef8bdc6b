ghost use Rattle.std.specs.Prelude.{◌≤◌, ℕ, List, Option};
ghost use Rattle.ch_outside.specs.Faults.{StaysReliable};
ghost use Rattle.ch_outside.specs.Sink.{Puts};

use thiserror::Error;

/// Why a piece wasn't written whole.
#[derive(Debug, Clone, Copy, PartialEq, Eq, Error)]
pub enum SinkError {
    /// The outside failed, after a prefix of the piece. It is counted.
    #[error("the piece could not be written")]
    Failed,

    /// Nothing was written.
    #[error("out of memory")]
    Memory,
}

/// Where bytes are written, in order.
pub trait Sink {
    /// What was written so far, where the sink tells it.
    ghost written: { Self → Option (List ℕ) };

    /// How many faults there were. A count at the end of a `u64` stays there.
    ghost faults: { Self → ℕ };

    /// That no call fails from here on. A sink that promises no such thing has `⊥` here.
    ghost reliable: { Self → Type 0 };

    /// Writes the piece after all that was written before.
    fn put(&mut self, piece: &[u8]) -> Result<(), SinkError>
        ensures later { faults self.old ≤ faults self.new }
        ensures steady { StaysReliable (reliable self.old) (reliable self.new)
            (faults self.old) (faults self.new) }
        ensures puts { Puts (written self.old) (written self.new) piece.now
            (faults self.old) (faults self.new) result };
}
