use ch_cells::Memory;
use thiserror::Error;

/// Why a text is not read as a program.
#[derive(Clone, Copy, Debug, PartialEq, Eq, Error)]
pub enum AsmError {
    /// The first line at which the lines so far begin no program text, counted from 1. Of a text that ends too early it is
    /// the number of lines plus one. A number from `u32::MAX` on is told as `u32::MAX`.
    #[error("line {line} of the program is bad")]
    Line { line: u32 },
    #[error("out of memory")]
    Memory,
}

impl From<Memory> for AsmError {
    ghost use Rattle.std.specs.Prelude.{◌≡◌};
    ghost use Rattle.ch_asm.specs.declared.error.AsmError.TheVariants.{Memory};

    ghost from_gives = { λ _ e. e ≡ Memory };

    fn from(_: Memory) -> AsmError {
        AsmError::Memory
    }
}
