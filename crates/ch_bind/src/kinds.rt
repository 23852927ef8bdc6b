ghost use Rattle.std.specs.Prelude.{◌≡◌, ◌<◌, ◌≤ℤ◌, pos, nat_abs, map, option_map, IfOk, None};
ghost use Rattle.ch_sql_grammar.specs.Tree.{select_of};
ghost use Rattle.ch_bind.specs.Binding as spec;
ghost use Rattle.ch_bind.specs.Scope as scope_spec;
ghost use Rattle.ch_bind.specs.Checks.{limit_refusal};

use crate::scope::{Scope, col_at, col_of, found_inner};
use ch_cells::{Listed, Memory};
use ch_pred::{Col, Dim, Shape};
use ch_sql::{Agg, ColumnRef, Having, Item, Query, SkyDim, Source, Tail};
use std::alloc::Global;

fn cols_of(alloc: Global, scope: &Scope, cols: &[ColumnRef]) -> Result<Listed<Col>, Memory>
    ensures { IfOk result (λ found. found ≡ map (scope_spec.col_of scope.now) cols.now) }
{
    let mut found = Listed::new(alloc);
    for col in cols {
        found.push(col_of(scope, col))?;
    }
    Ok(found)
}

fn dims_of(alloc: Global, scope: &Scope, dims: &[SkyDim]) -> Result<Listed<Dim>, Memory>
    ensures { IfOk result (λ found. found ≡ map (spec.dim_of scope.now) dims.now) }
{
    let mut found = Listed::new(alloc);
    for dim in dims {
        found.push(Dim {
            col: col_of(scope, &dim.col),
            max: dim.max,
        })?;
    }
    Ok(found)
}

/// The best value of a group: whether it is the greatest, and its column.
fn best_of(scope: &Scope, items: &[Item]) -> (bool, Col)
    ensures { result ≡ spec.best_of scope.now items.now }
{
    for item in items {
        match item {
            Item::Star | Item::Column(_) => {}
            Item::Max(col) => return (true, col_of(scope, col)),
            Item::Min(col) => return (false, col_of(scope, col)),
        }
    }
    (false, Col { side: 0, at: 0 })
}

fn summed(scope: &Scope, agg: &Agg) -> Option<Col>
    ensures { result ≡ spec.summed scope.now agg.now }
{
    match agg {
        Agg::Sum(col) => Some(col_of(scope, col)),
        Agg::Count => None,
    }
}

fn group_shape(
    alloc: Global,
    scope: &Scope,
    items: &[Item],
    keys: &[ColumnRef],
    having: &Option<Having>,
) -> Result<Shape, Memory>
    ensures { IfOk result (λ shape. shape ≡ spec.group_shape scope.now items.now keys.now having.now) }
{
    let keys = cols_of(alloc, scope, keys)?;
    match having {
        Some(having) => Ok(Shape::Having {
            keys,
            sum: summed(scope, &having.agg),
            above: having.above,
        }),
        None => {
            let (max, value) = best_of(scope, items);
            Ok(Shape::Group { keys, max, value })
        }
    }
}

fn plain_shape(distinct: bool) -> Shape
    ensures { result ≡ spec.plain_shape distinct }
{
    if distinct {
        Shape::Distinct
    } else {
        Shape::Filter
    }
}

fn limit_of(limit: i64) -> u32
    requires low { pos 0 ≤ℤ limit }
    requires high { limit ≤ℤ pos 65536 }
    ensures { result ≡ nat_abs limit }
{
    limit as u32
}

fn join_shape(a: Col, b: Col) -> Shape
    ensures { result ≡ spec.join_shape a b }
{
    if a.side == 0 {
        Shape::Join { left: a, right: b }
    } else {
        Shape::Join { left: b, right: a }
    }
}

fn tail_shape(
    alloc: Global,
    scope: &Scope,
    distinct: bool,
    items: &[Item],
    tail: &Tail,
) -> Result<Shape, Memory>
    requires { limit_refusal tail.now ≡ None }
    ensures { IfOk result (λ shape. shape ≡ spec.tail_shape scope.now distinct items.now tail.now) }
{
    match tail {
        Tail::Nothing => Ok(plain_shape(distinct)),
        Tail::Top {
            by,
            descending,
            limit,
        } => Ok(Shape::Top {
            by: col_of(scope, by),
            descending: *descending,
            limit: limit_of(*limit),
        }),
        Tail::Group { keys, having } => group_shape(alloc, scope, items, keys.as_slice(), having),
        Tail::Skyline { dims } => {
            let dims = dims_of(alloc, scope, dims.as_slice())?;
            Ok(Shape::Skyline { dims })
        }
    }
}

/// The kind of a query, with what that kind alone has.
pub(crate) fn shape_of(alloc: Global, scope: &Scope, query: &Query) -> Result<Shape, Memory>
    requires { limit_refusal query.now.tail ≡ None }
    ensures { IfOk result (λ shape. shape ≡ spec.shape_of scope.now (select_of query.now) query.now.source) }
{
    match &query.source {
        Source::One(_) => tail_shape(
            alloc,
            scope,
            query.distinct,
            query.items.as_slice(),
            &query.tail,
        ),
        Source::Join {
            left: _,
            right: _,
            first_on,
            second_on,
        } => Ok(join_shape(col_of(scope, first_on), col_of(scope, second_on))),
        Source::Semi {
            outer: _,
            inner: _,
            key,
            inner_key,
        } => Ok(Shape::Semi {
            key: col_of(scope, key),
            inner: col_at(found_inner(scope, inner_key)),
        }),
    }
}
