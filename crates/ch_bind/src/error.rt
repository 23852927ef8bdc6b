use ch_cells::Memory;
use thiserror::Error;

/// Why a query is bound to no tables: the first of nine checks that finds something. A `place` is the number of a column
/// among all columns that the query names, in the order of its text.
#[derive(Clone, Copy, Debug, PartialEq, Eq, Error)]
pub enum BindError {
    #[error("there is no table number {which} of the query")]
    NoTable { which: u8 },
    #[error("both tables of the query are the same")]
    SelfJoin,
    #[error("column {place} of the query is in no table of its")]
    NoColumn { place: u32 },
    #[error("column {place} of the query is in both tables")]
    Ambiguous { place: u32 },
    #[error("ON needs a column of each table")]
    BadOn,
    #[error("item {item} isn't allowed in a query of this kind")]
    BadItem { item: u32 },
    #[error("column {place} of the query has another kind than it needs")]
    KindClash { place: u32 },
    #[error("the query names {have} columns of table {side}, at most 16 are allowed")]
    TooManyColumns { side: u8, have: u32 },
    #[error("the skyline has {have} dimensions, at most 4 are allowed")]
    TooManyDims { have: u32 },
    #[error("the limit {n} isn't from 1 to 65536")]
    LimitRange { n: i64 },
    #[error("out of memory")]
    Memory,
}

/// Why the sums of a query aren't taken.
#[derive(Clone, Copy, Debug, PartialEq, Eq, Error)]
pub enum SumError {
    #[error("the summed cell of row {row} of part {part} is negative")]
    NegativeSum { part: u32, row: u32 },
}

impl From<Memory> for BindError {
    ghost use Rattle.std.specs.Prelude.{◌≡◌};
    ghost use Rattle.ch_bind.specs.declared.error.BindError.TheVariants as error;

    ghost from_gives = { λ _ e. e ≡ error.Memory };

    fn from(_: Memory) -> BindError {
        BindError::Memory
    }
}
