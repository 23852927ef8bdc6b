ghost use Rattle.std.specs.Prelude.{◌≡◌, List, [], ◌∷◌};
ghost use Rattle.ch_cells.specs.Row.{ascending};
ghost use Rattle.ch_cells.specs.declared.Cell.{Cell};
ghost use Rattle.ch_pred.specs.Meaning.{answer, holding, printed_of};

use crate::pred::{BoundPred, Col};
use ch_cells::{Header, Kind, Listed};

/// A dimension of a skyline: its column, and whether the greatest value is best.
#[derive(Clone, Copy, PartialEq, Eq)]
pub struct Dim {
    pub col: Col,
    pub max: bool,
}

/// The kind of a query, with what that kind alone has.
#[derive(PartialEq, Eq)]
pub enum Shape {
    Filter,
    Distinct,
    /// Ordered by a column, of which the first `limit` rows are the answer.
    Top {
        by: Col,
        descending: bool,
        limit: u32,
    },
    /// The greatest or least value of each key.
    Group {
        keys: Listed<Col>,
        max: bool,
        value: Col,
    },
    /// The keys whose sum, or number of rows, is above a number.
    Having {
        keys: Listed<Col>,
        sum: Option<Col>,
        above: i64,
    },
    /// The pairs whose key cells are equal.
    Join {
        left: Col,
        right: Col,
    },
    Skyline {
        dims: Listed<Dim>,
    },
    /// The rows of the first table whose key cell stands in the inner column.
    Semi {
        key: Col,
        inner: Col,
    },
}

impl Drop for Shape {
    fn drop(self) {
        match self {
            Shape::Filter | Shape::Distinct => {}
            Shape::Top {
                by: _,
                descending: _,
                limit: _,
            } => {}
            Shape::Group {
                keys: _,
                max: _,
                value: _,
            } => {}
            Shape::Having {
                keys: _,
                sum: _,
                above: _,
            } => {}
            Shape::Join { left: _, right: _ } => {}
            Shape::Skyline { dims: _ } => {}
            Shape::Semi { key: _, inner: _ } => {}
        }
    }
}

/// What stands in a column of the answer.
#[derive(Clone, Copy, PartialEq, Eq)]
pub enum Printed {
    Column(Col),
    /// The greatest or least value of a group.
    Best,
}

/// A query whose names are bound to tables and columns. `tables`, `carried` and `kinds` have one entry for each side,
/// the first table's first.
#[derive(PartialEq)]
pub struct Bound {
    /// The numbers of the query's tables.
    pub tables: Listed<u32>,
    /// The places of the columns that the query names anywhere, ascending.
    pub carried: Listed<Listed<u32>>,
    /// The kinds of the carried columns.
    pub kinds: Listed<Listed<Kind>>,
    /// The names of the answer's columns.
    pub header: Header,
    /// What stands in the answer's columns.
    pub printed: Listed<Printed>,
    pub filter: BoundPred,
    pub shape: Shape,
}

impl Drop for Bound {
    fn drop(self) {
        let Bound {
            tables: _,
            carried: _,
            kinds: _,
            header: _,
            printed: _,
            filter: _,
            shape: _,
        } = self;
    }
}

impl Bound {
    /// The names of the answer's columns, where nothing else of the query is needed any more.
    pub fn into_header(self) -> Header
        ensures { result ≡ self.header }
    {
        let Bound {
            tables: _,
            carried: _,
            kinds: _,
            header,
            printed: _,
            filter: _,
            shape: _,
        } = self;
        header
    }
}

/// The answer of a filter is what its rows that hold print, as `sort_rows` puts it.
pub fn filter_answer()
    ensures { (b : Bound) (rows : List (List Cell)) → b.shape ≡ Shape.Filter → answer b (rows ∷ []) ≡ ascending (printed_of b (holding b rows)) }
{}
