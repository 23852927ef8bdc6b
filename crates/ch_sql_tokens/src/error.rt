use ch_cells::Memory;
use thiserror::Error;

/// Why a text is no list of tokens. Places count bytes from 0.
#[derive(Clone, Copy, Debug, PartialEq, Eq, Error)]
pub enum LexError {
    #[error("the text has {have} bytes, and a query text has at most 16384")]
    TooLong { have: usize },
    #[error("no token stands at byte {at}")]
    Byte { at: usize },
    #[error("the number at byte {at} is out of range")]
    NumberRange { at: usize },
    #[error("out of memory")]
    Memory,
}

impl From<Memory> for LexError {
    ghost use Rattle.std.specs.Prelude.{◌≡◌};
    ghost use Rattle.ch_sql_tokens.specs.declared.error.LexError.TheVariants.{Memory};

    ghost from_gives = { λ _ e. e ≡ Memory };

    fn from(_: Memory) -> LexError {
        LexError::Memory
    }
}
