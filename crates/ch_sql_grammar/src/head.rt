use crate::query::{ColumnRef, Item, Source};
use ch_cells::{Bytes, Listed};

/// What stands before the filter: for a semi-join the filter behind its AND.
#[derive(Drop)]
pub struct Head {
    pub distinct: bool,
    pub items: Listed<Item>,
    pub source: Source,
}

/// What takes a column of a head.
#[derive(Drop)]
pub enum HeadTaker {
    Item(bool, Listed<Item>),
    /// Of MAX where the flag is set, else of MIN.
    Extreme(Listed<Item>, bool),
    FirstOn(Listed<Item>, Bytes, Bytes),
    SecondOn(Listed<Item>, Bytes, Bytes, ColumnRef),
    InnerKey(Listed<Item>, Bytes, ColumnRef),
}

/// How far the tokens of a head have come, with what they gave so far.
#[derive(Drop)]
pub enum HeadPlace {
    Start,
    /// Behind SELECT.
    Select,
    /// An item comes.
    Items(bool, Listed<Item>),
    /// Behind MAX where the flag is set, else behind MIN.
    Extreme(Listed<Item>, bool),
    /// A column comes, where nothing else may.
    Taking(HeadTaker),
    /// Behind the first name of a column, and behind its dot.
    Name(HeadTaker, Bytes),
    Dot(HeadTaker, Bytes),
    /// Behind the column of MAX or MIN.
    Closing(Listed<Item>, bool, ColumnRef),
    /// Behind an item.
    Listing(bool, Listed<Item>),
    From(bool, Listed<Item>),
    /// Behind the first table.
    Table(bool, Listed<Item>, Bytes),
    JoinTable(Listed<Item>, Bytes),
    On(Listed<Item>, Bytes, Bytes),
    /// Behind the first column of ON.
    Equals(Listed<Item>, Bytes, Bytes, ColumnRef),
    /// Behind the inner key of a semi-join, its FROM and its inner table.
    InnerFrom(Listed<Item>, Bytes, ColumnRef, ColumnRef),
    InnerTable(Listed<Item>, Bytes, ColumnRef, ColumnRef),
    InnerClose(Listed<Item>, Bytes, ColumnRef, ColumnRef, Bytes),
    Whole(Head),
}

/// What a token does at a place.
#[derive(Drop)]
pub enum HeadStep {
    On(HeadPlace),
    /// The head ended before the token.
    Done(Head),
    Stuck,
}
