ghost use Rattle.std.specs.Prelude.{◌≡◌};
ghost use Rattle.ch_command.specs.Verdict.{misuse_verdict, verdict_of};

use crate::outcome::{Ending, Outcome};
use ch_cells::{Bytes, Memory};
use std::alloc::{AllocError, AllocFailed, Global};

/// What a command has to say.
pub enum Verdict {
    Said(Outcome),
    /// A file wasn't read, with the line that names it.
    ReadFault(Bytes),
    Memory,
}

impl Drop for Verdict {
    fn drop(self) {
        match self {
            Verdict::Said(_) | Verdict::ReadFault(_) => {}
            Verdict::Memory => {}
        }
    }
}

impl Verdict {
    /// An outcome, unless memory ran out.
    pub fn of(outcome: Result<Outcome, Memory>) -> Verdict
        ensures { result ≡ verdict_of outcome }
    {
        match outcome {
            Ok(outcome) => Verdict::Said(outcome),
            Err(Memory) => Verdict::Memory,
        }
    }
}

/// Why words are no command.
#[derive(Debug, Drop)]
pub enum Misuse {
    /// With the line that says why.
    Line(Bytes),
    Memory,
}

impl Misuse {
    pub fn verdict(self, alloc: Global) -> Verdict
        ensures { result ≡ misuse_verdict self }
    {
        match self {
            Misuse::Line(line) => Verdict::Said(Outcome::refused(alloc, Ending::Usage, line)),
            Misuse::Memory => Verdict::Memory,
        }
    }
}

impl From<Memory> for Misuse {
    ghost use Rattle.std.specs.Prelude.{◌≡◌};
    ghost use Rattle.ch_command.specs.declared.verdict.Misuse.TheVariants.{Memory};

    ghost from_gives = { λ _ e. e ≡ Memory };

    fn from(_: Memory) -> Misuse {
        Misuse::Memory
    }
}

impl From<AllocError> for Misuse {
    ghost use Rattle.std.specs.Prelude.{◌≡◌};
    ghost use Rattle.ch_command.specs.declared.verdict.Misuse.TheVariants.{Memory};

    ghost from_gives = { λ _ e. e ≡ Memory };

    fn from(_: AllocError) -> Misuse {
        Misuse::Memory
    }
}

impl From<Memory> for Verdict {
    ghost use Rattle.std.specs.Prelude.{◌≡◌};
    ghost use Rattle.ch_command.specs.declared.verdict.Verdict.TheVariants.{Memory};

    ghost from_gives = { λ _ e. e ≡ Memory };

    fn from(_: Memory) -> Verdict {
        Verdict::Memory
    }
}

impl From<AllocError> for Verdict {
    ghost use Rattle.std.specs.Prelude.{◌≡◌};
    ghost use Rattle.ch_command.specs.declared.verdict.Verdict.TheVariants.{Memory};

    ghost from_gives = { λ _ e. e ≡ Memory };

    fn from(_: AllocError) -> Verdict {
        Verdict::Memory
    }
}

impl<T: Drop> From<AllocFailed<T>> for Verdict {
    ghost use Rattle.std.specs.Prelude.{◌≡◌};
    ghost use Rattle.ch_command.specs.declared.verdict.Verdict.TheVariants.{Memory};

    ghost from_gives = { λ _ e. e ≡ Memory };

    fn from(_: AllocFailed<T>) -> Verdict {
        Verdict::Memory
    }
}
