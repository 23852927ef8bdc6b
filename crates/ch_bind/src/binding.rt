ghost use Rattle.std.specs.Prelude.{◌≡◌, ◌<◌, ◌≤◌, ◌^◌, ◌⊎◌, All, length, unwrap_or, IfOk, IfErr, None, Some};
ghost use Rattle.ch_pred.specs.Sound.{IsSound};
ghost use Rattle.ch_sql_grammar.specs.Tree.{select_of};
ghost use Rattle.ch_bind.specs.Binding as spec;
ghost use Rattle.ch_bind.specs.Binding.{bound_in, bound_of, plain_bound};
ghost use Rattle.ch_bind.specs.Checks as checks_spec;
ghost use Rattle.ch_bind.specs.Checks.{bind_refusal, refusal_in};
ghost use Rattle.std.specs.Option.{option_or};
ghost use Rattle.ch_sql.specs.Parsed.{IsParsed};
ghost use Rattle.ch_bind.specs.References as references_spec;
ghost use Rattle.ch_bind.specs.Scope as scope_spec;
ghost use Rattle.ch_bind.specs.Shapes.{AreShapes};
ghost use Rattle.ch_bind.specs.declared.error.BindError.TheVariants as error;

use crate::carried::carried_in;
use crate::checks::{
    column_refusal, dims_refusal, kind_refusal, limit_refusal, on_refusal, self_refusal,
    table_refusal, too_many,
};
use crate::error::BindError;
use crate::filter::filter_of;
use crate::items::{has_star, item_refusal};
use crate::kinds::shape_of;
use crate::printed::{header_of, printed_of};
use crate::references::{Reference, references_of};
use crate::scope::{Candidate, Scope, kind_at, number_of, scope_of};
use crate::shape::TableShape;
use ch_cells::{Kind, Listed, Memory};
use ch_pred::Bound;
use ch_sql::{Query, Source};
use std::alloc::Global;

fn kinds_at(alloc: Global, table: &Candidate, carried: &[u32]) -> Result<Listed<Kind>, Memory>
    ensures { IfOk result (λ kinds. kinds ≡ spec.kinds_at table.now carried.now) }
{
    let mut kinds = Listed::new(alloc);
    for at in carried {
        kinds.push(kind_at(table, *at))?;
    }
    Ok(kinds)
}

/// One entry for each table of the source.
fn per_side<T: Drop>(
    alloc: Global,
    source: &Source,
    first: Listed<T>,
    second: Listed<T>,
) -> Result<Listed<Listed<T>>, Memory>
    ensures { IfOk result (λ sides. sides ≡ spec.per_side source.now first second) }
{
    let mut sides = Listed::new(alloc);
    sides.push(first)?;
    match source {
        Source::One(_) => {
            drop(second);
            Ok(sides)
        }
        Source::Join {
            left: _,
            right: _,
            first_on: _,
            second_on: _,
        }
        | Source::Semi {
            outer: _,
            inner: _,
            key: _,
            inner_key: _,
        } => {
            sides.push(second)?;
            Ok(sides)
        }
    }
}

fn table_number(shapes: &[TableShape], name: &[u8]) -> u32
    requires { length shapes.now < 2 ^ 32 }
    ensures { result ≡ unwrap_or (scope_spec.number_of shapes.now name.now) 0 }
{
    match number_of(shapes, name) {
        Some(at) => at,
        None => 0,
    }
}

/// The numbers of the query's tables.
fn tables_of(alloc: Global, shapes: &[TableShape], source: &Source) -> Result<Listed<u32>, Memory>
    requires { length shapes.now < 2 ^ 32 }
    ensures { IfOk result (λ tables. tables ≡ spec.tables_of shapes.now source.now) }
{
    let mut tables = Listed::new(alloc);
    match source {
        Source::One(table) => {
            tables.push(table_number(shapes, table.as_slice()))?;
            Ok(tables)
        }
        Source::Join {
            left,
            right,
            first_on: _,
            second_on: _,
        } => {
            tables.push(table_number(shapes, left.as_slice()))?;
            tables.push(table_number(shapes, right.as_slice()))?;
            Ok(tables)
        }
        Source::Semi {
            outer,
            inner,
            key: _,
            inner_key: _,
        } => {
            tables.push(table_number(shapes, outer.as_slice()))?;
            tables.push(table_number(shapes, inner.as_slice()))?;
            Ok(tables)
        }
    }
}

/// The query in which no check found anything, with its carried columns.
fn bound(
    alloc: Global,
    query: &Query,
    shapes: &[TableShape],
    scope: &Scope,
    first: Listed<u32>,
    second: Listed<u32>,
) -> Result<Bound, Memory>
    requires few { length shapes.now < 2 ^ 32 }
    requires limit { checks_spec.limit_refusal query.now.tail ≡ None }
    requires first { first ≡ checks_spec.first_carried scope.now (select_of query.now) }
    requires second { second ≡ checks_spec.second_carried scope.now (select_of query.now) }
    ensures { IfOk result (λ b. plain_bound b ≡ bound_in scope.now (select_of query.now) shapes.now) }
{
    let first_kinds = kinds_at(alloc, &scope.first, first.as_slice())?;
    let second_kinds = kinds_at(alloc, &scope.second, second.as_slice())?;
    let kinds = per_side(alloc, &query.source, first_kinds, second_kinds)?;
    let carried = per_side(alloc, &query.source, first, second)?;
    let tables = tables_of(alloc, shapes, &query.source)?;
    let header = header_of(alloc, scope, query.items.as_slice())?;
    let printed = printed_of(alloc, scope, query.items.as_slice())?;
    let filter = filter_of(alloc, scope, &query.filter)?;
    let shape = shape_of(alloc, scope, query)?;
    Ok(Bound {
        tables,
        carried,
        kinds,
        header,
        printed,
        filter,
        shape,
    })
}

fn earlier(first: Option<BindError>, second: Option<BindError>) -> Option<BindError>
    ensures { result ≡ option_or first second }
{
    match first {
        Some(error) => Some(error),
        None => second,
    }
}

/// The first of the checks 3 to 9 that finds something.
fn refusal_of(
    query: &Query,
    scope: &Scope,
    refs: &[Reference],
    item: Option<BindError>,
    first: &[u32],
    second: &[u32],
) -> Option<BindError>
    requires room { length refs.now < 2 ^ 32 }
    requires dims { checks_spec.dims_count query.now.tail < 2 ^ 32 }
    requires few { (length first.now < 2 ^ 32) × (length second.now < 2 ^ 32) }
    requires refs { refs.now ≡ references_spec.references_of scope.now (select_of query.now) }
    requires item { item ≡ checks_spec.item_refusal scope.now (select_of query.now) }
    requires first { first.now ≡ checks_spec.first_carried scope.now (select_of query.now) }
    requires second { second.now ≡ checks_spec.second_carried scope.now (select_of query.now) }
    ensures { result ≡ refusal_in scope.now (select_of query.now) }
{
    let late = earlier(
        dims_refusal(&query.tail),
        earlier(limit_refusal(&query.tail), None),
    );
    let width = earlier(too_many(0, first), too_many(1, second));
    let kinds = earlier(kind_refusal(refs), earlier(width, late));
    let names = on_refusal(scope, &query.source);
    earlier(column_refusal(refs), earlier(names, earlier(item, kinds)))
}

/// The query bound in the tables of its source, or the first of the checks 3 to 9 that finds something.
fn bind_in(
    alloc: Global,
    query: &Query,
    shapes: &[TableShape],
    scope: &Scope,
) -> Result<Bound, BindError>
    requires shapes { length shapes.now < 2 ^ 32 }
    requires items { length query.now.items < 2 ^ 32 }
    requires dims { checks_spec.dims_count query.now.tail < 2 ^ 32 }
    requires refs { length (references_spec.references_of scope.now (select_of query.now)) < 2 ^ 32 }
    ensures bound { IfOk result (λ b. (refusal_in scope.now (select_of query.now) ≡ None) × (plain_bound b ≡ bound_in scope.now (select_of query.now) shapes.now)) }
    ensures refused { IfErr result (λ e. (e ≡ error.Memory) ⊎ (refusal_in scope.now (select_of query.now) ≡ Some e)) }
{
    let refs = references_of(alloc, scope, query)?;
    let item = item_refusal(alloc, scope, query)?;
    let star = has_star(query.items.as_slice());
    let first = carried_in(alloc, &scope.first, 0, star, refs.as_slice())?;
    let second = carried_in(
        alloc,
        &scope.second,
        1,
        scope.is_join && star,
        refs.as_slice(),
    )?;
    let refusal = refusal_of(
        query,
        scope,
        refs.as_slice(),
        item,
        first.as_slice(),
        second.as_slice(),
    );
    match refusal {
        Some(error) => Err(error),
        None => Ok(bound(alloc, query, shapes, scope, first, second)?),
    }
}

/// The query with each name replaced by its one column, or the first of the nine checks that finds something.
pub fn bind(alloc: Global, query: &Query, shapes: &Listed<TableShape>) -> Result<Bound, BindError>
    requires shapes { AreShapes shapes.now }
    requires query { IsParsed (select_of query.now) }
    // No check found anything, and each name is replaced by its one column.
    ensures bound { IfOk result (λ b. (bind_refusal (select_of query.now) shapes.now ≡ None) × (plain_bound b ≡ bound_of (select_of query.now) shapes.now)) }
    ensures sound { IfOk result IsSound }
    ensures few { IfOk result (λ b. All (λ columns. length columns ≤ 16) b.carried) }
    // The first check that finds something is told, unless memory runs out.
    ensures refused { IfErr result (λ e. (e ≡ error.Memory) ⊎ (bind_refusal (select_of query.now) shapes.now ≡ Some e)) }
{
    let shapes = shapes.as_slice();
    let tables = table_refusal(&query.source, shapes);
    match earlier(tables, self_refusal(&query.source)) {
        Some(error) => Err(error),
        None => {
            let scope = scope_of(alloc, &query.source, shapes)?;
            bind_in(alloc, query, shapes, &scope)
        }
    }
}
