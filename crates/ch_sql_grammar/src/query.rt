ghost use Rattle.std.specs.Prelude.{◌≡◌};
ghost use Rattle.ch_sql_grammar.specs.Tree.{one_table};

use ch_cells::{Bytes, Listed};
use ch_pred::{Cmp, Literal};

/// A column as a query names it, with or without its table.
#[derive(PartialEq, Eq)]
pub struct ColumnRef {
    pub table: Option<Bytes>,
    pub name: Bytes,
}

impl Drop for ColumnRef {
    fn drop(self) {
        let ColumnRef { table: _, name: _ } = self;
    }
}

/// What a column is compared with.
#[derive(Drop, PartialEq, Eq)]
pub enum Side {
    Column(ColumnRef),
    Value(Literal),
}

/// A predicate as a query writes it. No node stands for parentheses, and an `And` or an `Or` has
/// two members or more.
#[derive(PartialEq)]
pub enum Pred {
    Compare(ColumnRef, Cmp, Side),
    /// Both ends are within.
    Between(ColumnRef, Literal, Literal),
    Within(ColumnRef, Vec<Literal>),
    /// The prefix, without its percent sign.
    Like(ColumnRef, Bytes),
    And(Vec<Pred>),
    Or(Vec<Pred>),
    Not(Box<Pred>),
}

impl Drop for Pred {
    fn drop(self) {
        match self {
            Pred::Compare(_, _, _) => {}
            Pred::Between(_, _, _) => {}
            Pred::Within(_, _) => {}
            Pred::Like(_, _) => {}
            Pred::And(_) | Pred::Or(_) => {}
            Pred::Not(_) => {}
        }
    }
}

/// What a query selects. A `Star` is all columns of the source.
#[derive(Drop, PartialEq, Eq)]
pub enum Item {
    Star,
    Column(ColumnRef),
    Max(ColumnRef),
    Min(ColumnRef),
}

/// Where a query's rows come from.
#[derive(PartialEq, Eq)]
pub enum Source {
    One(Bytes),
    Join {
        left: Bytes,
        right: Bytes,
        first_on: ColumnRef,
        second_on: ColumnRef,
    },
    /// The rows of the outer table whose key stands in the inner key's column.
    Semi {
        outer: Bytes,
        inner: Bytes,
        key: ColumnRef,
        inner_key: ColumnRef,
    },
}

impl Drop for Source {
    fn drop(self) {
        match self {
            Source::One(_) => {}
            Source::Join {
                left: _,
                right: _,
                first_on: _,
                second_on: _,
            } => {}
            Source::Semi {
                outer: _,
                inner: _,
                key: _,
                inner_key: _,
            } => {}
        }
    }
}

impl Source {
    /// The table, where there is one alone.
    pub fn into_one(self) -> Option<Bytes>
        ensures { result ≡ one_table self }
    {
        match self {
            Source::One(table) => Some(table),
            other => {
                drop(other);
                None
            }
        }
    }
}

#[derive(Drop, PartialEq, Eq)]
pub enum Agg {
    Sum(ColumnRef),
    Count,
}

#[derive(Drop, PartialEq, Eq)]
pub struct Having {
    pub agg: Agg,
    pub above: i64,
}

/// A dimension of a skyline: whether more is better.
#[derive(Drop, PartialEq, Eq)]
pub struct SkyDim {
    pub col: ColumnRef,
    pub max: bool,
}

/// What stands behind the source and the filter.
#[derive(PartialEq, Eq)]
pub enum Tail {
    Nothing,
    Top {
        by: ColumnRef,
        descending: bool,
        limit: i64,
    },
    Group {
        keys: Listed<ColumnRef>,
        having: Option<Having>,
    },
    Skyline {
        dims: Listed<SkyDim>,
    },
}

impl Drop for Tail {
    fn drop(self) {
        match self {
            Tail::Nothing => {}
            Tail::Top {
                by: _,
                descending: _,
                limit: _,
            } => {}
            Tail::Group { keys: _, having: _ } => {}
            Tail::Skyline { dims: _ } => {}
        }
    }
}

/// A query as it is written, before its names are bound.
#[derive(PartialEq)]
pub struct Query {
    pub distinct: bool,
    pub items: Listed<Item>,
    pub source: Source,
    pub filter: Option<Pred>,
    pub tail: Tail,
}

impl Drop for Query {
    fn drop(self) {
        let Query {
            distinct: _,
            items: _,
            source: _,
            filter: _,
            tail: _,
        } = self;
    }
}
