use crate::query::{Agg, ColumnRef, SkyDim, Tail};
use ch_cells::{Bytes, Listed};

/// What takes a column of a tail.
#[derive(Drop)]
pub enum TailTaker {
    By,
    Key(Listed<ColumnRef>),
    Sum(Listed<ColumnRef>),
    Dim(Listed<SkyDim>),
}

/// How far the tokens of a tail have come, with what they gave so far.
#[derive(Drop)]
pub enum TailPlace {
    /// A tail may begin where the flag is set.
    Start(bool),
    /// Behind ORDER, GROUP and SKYLINE.
    Order,
    Group,
    Skyline,
    /// A column comes.
    Taking(TailTaker),
    /// Behind the first name of a column, and behind its dot.
    Name(TailTaker, Bytes),
    Dot(TailTaker, Bytes),
    /// Behind the column of ORDER BY, its direction, and LIMIT.
    Direction(ColumnRef),
    Limit(ColumnRef, bool),
    LimitNumber(ColumnRef, bool),
    /// Behind a key, and behind HAVING.
    Keys(Listed<ColumnRef>),
    Having(Listed<ColumnRef>),
    SumOpen(Listed<ColumnRef>),
    SumClose(Listed<ColumnRef>, ColumnRef),
    CountOpen(Listed<ColumnRef>),
    CountStar(Listed<ColumnRef>),
    CountClose(Listed<ColumnRef>),
    /// Behind an aggregate, and behind its `>`.
    Above(Listed<ColumnRef>, Agg),
    AboveNumber(Listed<ColumnRef>, Agg),
    /// Behind the column of a dimension, and behind the dimension.
    DimDirection(Listed<SkyDim>, ColumnRef),
    Dims(Listed<SkyDim>),
    Whole(Tail),
    /// Behind the semicolon.
    Ended(Tail),
}
