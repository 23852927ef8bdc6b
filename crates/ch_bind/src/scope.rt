ghost use Rattle.std.specs.Prelude.{◌≡◌, ◌<◌, ◌^◌, All, length, IfOk, IfSome};
ghost use Rattle.ch_bind.specs.Scope as spec;
ghost use Rattle.ch_bind.specs.Shapes.{AreShapes, IsShape};
ghost use Rattle.ch_bind.specs.Within.{IsWithin};

use crate::names::{Names, names_of};
use crate::shape::TableShape;
use ch_cells::{Bytes, Kind, Listed, Memory};
use ch_pred::Col;
use ch_sql::{ColumnRef, Source};
use std::alloc::Global;

/// A table that a name can be of.
#[derive(Drop)]
pub(crate) struct Candidate {
    pub(crate) name: Bytes,
    pub(crate) header: Names,
    pub(crate) kinds: Listed<Kind>,
}

/// The tables of a query. The second one has no columns where there is none.
#[derive(Drop)]
pub(crate) struct Scope {
    pub(crate) first: Candidate,
    pub(crate) second: Candidate,
    pub(crate) is_join: bool,
}

/// What a name stands for.
#[derive(Clone, Copy)]
pub(crate) enum Found {
    Nowhere,
    Twice,
    At(Col),
}

/// The number of the table of this name.
pub(crate) fn number_of(shapes: &[TableShape], name: &[u8]) -> Option<u32>
    requires { length shapes.now < 2 ^ 32 }
    ensures value { result ≡ spec.number_of shapes.now name.now }
    ensures within { IfSome result (λ at. at < length shapes.now) }
{
    for at in 0..shapes.len() as u32 {
        if name == shapes[at as usize].name.as_slice() {
            return Some(at);
        }
    }
    None
}

fn candidate_of(alloc: Global, shape: &TableShape) -> Result<Candidate, Memory>
    requires { IsShape shape.now }
    ensures { IfOk result (λ table. table ≡ spec.candidate_of shape.now) }
{
    let name = Bytes::from_slice(alloc, shape.name.as_slice())?;
    let kinds = Listed::from_vec(Vec::from_slice(alloc, shape.kinds.as_slice())?);
    let header = names_of(alloc, &shape.header)?;
    Ok(Candidate {
        name,
        header,
        kinds,
    })
}

fn no_table(alloc: Global) -> Candidate
    ensures { result ≡ spec.no_table }
{
    Candidate {
        name: Bytes::from_vec(Vec::new(alloc)),
        header: Names::new(alloc),
        kinds: Listed::new(alloc),
    }
}

/// The table of this name.
fn table_of(alloc: Global, shapes: &[TableShape], name: &[u8]) -> Result<Candidate, Memory>
    requires { AreShapes shapes.now }
    ensures { IfOk result (λ table. table ≡ spec.table_of shapes.now name.now) }
{
    match number_of(shapes, name) {
        Some(at) => candidate_of(alloc, &shapes[at as usize]),
        None => Ok(no_table(alloc)),
    }
}

/// The tables of a source.
pub(crate) fn scope_of(
    alloc: Global,
    source: &Source,
    shapes: &[TableShape],
) -> Result<Scope, Memory>
    requires { AreShapes shapes.now }
    ensures { IfOk result (λ scope. scope ≡ spec.scope_of source.now shapes.now) }
{
    match source {
        Source::One(table) => {
            let first = table_of(alloc, shapes, table.as_slice())?;
            Ok(Scope {
                first,
                second: no_table(alloc),
                is_join: false,
            })
        }
        Source::Join {
            left,
            right,
            first_on: _,
            second_on: _,
        } => {
            let first = table_of(alloc, shapes, left.as_slice())?;
            let second = table_of(alloc, shapes, right.as_slice())?;
            Ok(Scope {
                first,
                second,
                is_join: true,
            })
        }
        Source::Semi {
            outer,
            inner,
            key: _,
            inner_key: _,
        } => {
            let first = table_of(alloc, shapes, outer.as_slice())?;
            let second = table_of(alloc, shapes, inner.as_slice())?;
            Ok(Scope {
                first,
                second,
                is_join: false,
            })
        }
    }
}

fn is_of(col: &ColumnRef, table: &[u8]) -> bool
    ensures { result ≡ spec.is_of col.now.table table.now }
{
    match &col.table {
        Some(qualifier) => qualifier.as_slice() == table,
        None => true,
    }
}

fn place_on(table: &Candidate, col: &ColumnRef) -> Option<u32>
    ensures place { result ≡ spec.place_on table.now col.now }
    ensures within { IfSome result (λ at. at < length table.now.header) }
{
    if is_of(col, table.name.as_slice()) {
        table.header.place(col.name.as_slice())
    } else {
        None
    }
}

fn found_among(first: Option<u32>, second: Option<u32>) -> Found
    ensures { result ≡ spec.found_among first second }
{
    match (first, second) {
        (None, None) => Found::Nowhere,
        (Some(at), None) => Found::At(Col { side: 0, at }),
        (None, Some(at)) => Found::At(Col { side: 1, at }),
        (Some(_), Some(_)) => Found::Twice,
    }
}

/// What a column stands for that can be of the first table, or in a join of either.
#[tactic(auto, using(crate::proofs::Founding::among_within))]
pub(crate) fn found_in(scope: &Scope, col: &ColumnRef) -> Found
    ensures found { result ≡ spec.found_in scope.now col.now }
    ensures within { IsWithin (length scope.now.first.header) result }
{
    if scope.is_join {
        found_among(place_on(&scope.first, col), place_on(&scope.second, col))
    } else {
        found_among(place_on(&scope.first, col), None)
    }
}

/// What the inner key of a semi-join stands for.
pub(crate) fn found_inner(scope: &Scope, col: &ColumnRef) -> Found
    ensures { result ≡ spec.found_inner scope.now col.now }
{
    found_among(None, place_on(&scope.second, col))
}

pub(crate) fn col_at(found: Found) -> Col
    ensures { result ≡ spec.col_at found }
{
    match found {
        Found::At(col) => col,
        Found::Nowhere | Found::Twice => Col { side: 0, at: 0 },
    }
}

pub(crate) fn col_of(scope: &Scope, col: &ColumnRef) -> Col
    ensures { result ≡ spec.col_of scope.now col.now }
{
    col_at(found_in(scope, col))
}

pub(crate) fn kind_at(table: &Candidate, at: u32) -> Kind
    ensures { result ≡ spec.kind_at table.now at }
{
    match table.kinds.as_slice().get(at as usize) {
        Some(kind) => *kind,
        None => Kind::Void,
    }
}

pub(crate) fn kind_of(scope: &Scope, col: Col) -> Kind
    ensures { result ≡ spec.kind_of scope.now col }
{
    if col.side == 0 {
        kind_at(&scope.first, col.at)
    } else {
        kind_at(&scope.second, col.at)
    }
}
