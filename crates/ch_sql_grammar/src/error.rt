use ch_cells::Memory;
use std::alloc::{AllocError, AllocFailed};
use thiserror::Error;

/// Why tokens are no query. Places count tokens from 0.
#[derive(Clone, Copy, Debug, PartialEq, Eq, Error)]
pub enum ParseError {
    #[error("the tokens are no query from token {at} on")]
    Syntax { at: usize },
    #[error("token {at} nests more than 32 deep")]
    TooDeep { at: usize },
    #[error("the list has more than 16 values at token {at}")]
    InTooLong { at: usize },
    #[error("the pattern at token {at} is no prefix and a percent sign")]
    BadLike { at: usize },
    #[error("out of memory")]
    Memory,
}

impl From<Memory> for ParseError {
    ghost use Rattle.std.specs.Prelude.{◌≡◌};
    ghost use Rattle.ch_sql_grammar.specs.declared.error.ParseError.TheVariants.{Memory};

    ghost from_gives = { λ _ e. e ≡ Memory };

    fn from(_: Memory) -> ParseError {
        ParseError::Memory
    }
}

impl From<AllocError> for ParseError {
    ghost use Rattle.std.specs.Prelude.{◌≡◌};
    ghost use Rattle.ch_sql_grammar.specs.declared.error.ParseError.TheVariants.{Memory};

    ghost from_gives = { λ _ e. e ≡ Memory };

    fn from(_: AllocError) -> ParseError {
        ParseError::Memory
    }
}

impl<T: Drop> From<AllocFailed<T>> for ParseError {
    ghost use Rattle.std.specs.Prelude.{◌≡◌};
    ghost use Rattle.ch_sql_grammar.specs.declared.error.ParseError.TheVariants.{Memory};

    ghost from_gives = { λ _ e. e ≡ Memory };

    fn from(_: AllocFailed<T>) -> ParseError {
        ParseError::Memory
    }
}
