use ch_cells::Memory;
use std::alloc::{AllocError, AllocFailed};
use thiserror::Error;

/// How much a table may hold in all its parts.
#[derive(Clone, Copy)]
pub struct Room {
    pub rows: u32,
    /// Each row counts as many as the header has names.
    pub cells: u32,
}

/// Why parts are no table. Parts, rows and columns are counted from 0.
#[derive(Clone, Copy, Debug, PartialEq, Eq, Error)]
pub enum TableError {
    #[error("part {part}: no header")]
    NoHeader {
        part: u32,
    },
    /// The first column of part 0 whose name stands earlier.
    #[error("column {at} repeated")]
    DuplicateColumn {
        at: u32,
    },
    #[error("part {part}: header differs")]
    HeaderDiffers {
        part: u32,
    },
    #[error("part {part} row {row}: {have} cells and not {want}")]
    Ragged {
        part: u32,
        row: u32,
        have: u32,
        want: u32,
    },
    #[error("part {part} row {row}: too many rows")]
    TooManyRows {
        part: u32,
        row: u32,
    },
    #[error("part {part} row {row}: too many cells")]
    TooManyCells {
        part: u32,
        row: u32,
    },
    #[error("out of memory")]
    Memory,
}

impl From<Memory> for TableError {
    ghost use Rattle.std.specs.Prelude.{◌≡◌};
    ghost use Rattle.ch_tables.specs.declared.error.TableError.TheVariants as refused;

    ghost from_gives = { λ _ e. e ≡ refused.Memory };

    fn from(_: Memory) -> TableError {
        TableError::Memory
    }
}

impl From<AllocError> for TableError {
    ghost use Rattle.std.specs.Prelude.{◌≡◌};
    ghost use Rattle.ch_tables.specs.declared.error.TableError.TheVariants as refused;

    ghost from_gives = { λ _ e. e ≡ refused.Memory };

    fn from(_: AllocError) -> TableError {
        TableError::Memory
    }
}

impl<T: Drop> From<AllocFailed<T>> for TableError {
    ghost use Rattle.std.specs.Prelude.{◌≡◌};
    ghost use Rattle.ch_tables.specs.declared.error.TableError.TheVariants as refused;

    ghost from_gives = { λ _ e. e ≡ refused.Memory };

    fn from(_: AllocFailed<T>) -> TableError {
        TableError::Memory
    }
}
