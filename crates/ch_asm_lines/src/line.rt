use ch_cells::Memory;
use ch_ir::{Access, Array, Op};
use thiserror::Error;

/// A line of a program text.
#[derive(Drop)]
pub enum Line {
    /// The first line.
    Header,
    Width(u32),
    Array(Array),
    /// The beginning of a stage.
    Stage,
    Op(Op),
    Access(Access),
    Verdict(u32),
    /// The last line.
    End,
}

/// Why a text is not read as a line.
#[derive(Clone, Copy, Debug, PartialEq, Eq, Error)]
pub enum LineError {
    /// It spells no line.
    #[error("no line of a program")]
    Bad,
    #[error("out of memory")]
    Memory,
}

impl From<Memory> for LineError {
    ghost use Rattle.std.specs.Prelude.{◌≡◌};
    ghost use Rattle.ch_asm_lines.specs.declared.line.LineError.TheVariants.{Memory};

    ghost from_gives = { λ _ e. e ≡ Memory };

    fn from(_: Memory) -> LineError {
        LineError::Memory
    }
}
