ghost use Rattle.std.specs.Prelude.{◌≡◌, ◌++◌, ◌∷◌, [], map, option_map, IfOk, OnOk};
ghost use Rattle.ch_sql.specs.Columns.{item_columns};
ghost use Rattle.ch_sql_grammar.specs.Tree.{plain_of, plains, select_of, Compare, Between, Within, Like};
ghost use Rattle.ch_bind.specs.References as spec;

use crate::scope::{Found, Scope, col_at, found_in, found_inner, kind_of};
use ch_cells::{Kind, Listed, Memory};
use ch_pred::Literal;
use ch_sql::{Agg, ColumnRef, Having, Item, Pred, Query, Side, SkyDim, Source, Tail};
use std::alloc::Global;

/// What stands at a column reference: what it stands for, and whether what begins there compares kinds that don't suit
/// each other.
#[derive(Clone, Copy)]
pub(crate) struct Reference {
    pub(crate) found: Found,
    pub(crate) clash: bool,
}

fn clashes(a: Kind, b: Kind) -> bool
    ensures { result ≡ spec.clashes a b }
{
    match (a, b) {
        (Kind::Number, Kind::Text) | (Kind::Text, Kind::Number) => true,
        _ => false,
    }
}

fn literal_kind(literal: &Literal) -> Kind
    ensures { result ≡ spec.literal_kind literal.now }
{
    match literal {
        Literal::Number(_) => Kind::Number,
        Literal::Text(_) => Kind::Text,
    }
}

fn found_kind(scope: &Scope, found: Found) -> Kind
    ensures { result ≡ spec.found_kind scope.now found }
{
    kind_of(scope, col_at(found))
}

fn side_kind(scope: &Scope, side: &Side) -> Kind
    ensures { result ≡ spec.side_kind scope.now side.now }
{
    match side {
        Side::Column(col) => found_kind(scope, found_in(scope, col)),
        Side::Value(literal) => literal_kind(literal),
    }
}

fn mere(scope: &Scope, col: &ColumnRef) -> Reference
    ensures { result ≡ spec.mere scope.now col.now }
{
    Reference {
        found: found_in(scope, col),
        clash: false,
    }
}

fn of_kind(scope: &Scope, kind: Kind, col: &ColumnRef) -> Reference
    ensures { result ≡ spec.of_kind scope.now kind col.now }
{
    let found = found_in(scope, col);
    Reference {
        found,
        clash: clashes(found_kind(scope, found), kind),
    }
}

fn has_clash(kind: Kind, literals: &[Literal]) -> bool
    ensures { result ≡ spec.has_clash kind literals.now }
{
    for literal in literals {
        if clashes(kind, literal_kind(literal)) {
            return true;
        }
    }
    false
}

fn within(scope: &Scope, col: &ColumnRef, literals: &[Literal]) -> Reference
    ensures { result ≡ spec.beside_literals scope.now col.now literals.now }
{
    let found = found_in(scope, col);
    Reference {
        found,
        clash: has_clash(found_kind(scope, found), literals),
    }
}

fn between(scope: &Scope, col: &ColumnRef, low: &Literal, high: &Literal) -> Reference
    ensures { result ≡ spec.beside_literals scope.now col.now (low.now ∷ high.now ∷ []) }
{
    let found = found_in(scope, col);
    let kind = found_kind(scope, found);
    let clash = clashes(kind, literal_kind(low)) || clashes(kind, literal_kind(high));
    Reference { found, clash }
}

/// References that ask for nothing.
pub(crate) fn push_columns(
    refs: &mut Listed<Reference>,
    scope: &Scope,
    cols: &[ColumnRef],
) -> Result<(), Memory>
    ensures { OnOk result (refs.new ≡ refs.old ++ map (spec.mere scope.now) cols.now) }
{
    for col in cols {
        refs.push(mere(scope, col))?;
    }
    Ok(())
}

fn push_item(refs: &mut Listed<Reference>, scope: &Scope, item: &Item) -> Result<(), Memory>
    ensures { OnOk result (refs.new ≡ refs.old ++ map (spec.mere scope.now) (item_columns item.now)) }
{
    match item {
        Item::Star => Ok(()),
        Item::Column(col) | Item::Max(col) | Item::Min(col) => refs.push(mere(scope, col)),
    }
}

fn push_items(refs: &mut Listed<Reference>, scope: &Scope, items: &[Item]) -> Result<(), Memory>
    ensures { OnOk result (refs.new ≡ refs.old ++ spec.items_references scope.now items.now) }
{
    for item in items {
        push_item(refs, scope, item)?;
    }
    Ok(())
}

fn push_source(refs: &mut Listed<Reference>, scope: &Scope, source: &Source) -> Result<(), Memory>
    ensures { OnOk result (refs.new ≡ refs.old ++ spec.source_references scope.now source.now) }
{
    match source {
        Source::One(_) => Ok(()),
        Source::Join {
            left: _,
            right: _,
            first_on,
            second_on,
        } => {
            let second = mere(scope, second_on);
            let kind = found_kind(scope, second.found);
            refs.push(of_kind(scope, kind, first_on))?;
            refs.push(second)
        }
        Source::Semi {
            outer: _,
            inner: _,
            key,
            inner_key,
        } => {
            let found = found_inner(scope, inner_key);
            let kind = found_kind(scope, found);
            refs.push(of_kind(scope, kind, key))?;
            refs.push(Reference {
                found,
                clash: false,
            })
        }
    }
}

fn push_side(refs: &mut Listed<Reference>, scope: &Scope, side: &Side) -> Result<(), Memory>
    ensures { OnOk result (refs.new ≡ refs.old ++ spec.side_references scope.now side.now) }
{
    match side {
        Side::Column(col) => refs.push(mere(scope, col)),
        Side::Value(_) => Ok(()),
    }
}

fn push_comparison(
    refs: &mut Listed<Reference>,
    scope: &Scope,
    col: &ColumnRef,
    side: &Side,
) -> Result<(), Memory>
    ensures { OnOk result (refs.new ≡ refs.old ++ (spec.of_kind scope.now (spec.side_kind scope.now side.now) col.now ∷ spec.side_references scope.now side.now)) }
{
    refs.push(of_kind(scope, side_kind(scope, side), col))?;
    push_side(refs, scope, side)
}

#[cycle(walking)]
fn push_pred(refs: &mut Listed<Reference>, scope: &Scope, pred: &Pred) -> Result<(), Memory>
    ensures { OnOk result (refs.new ≡ refs.old ++ spec.pred_references scope.now (plain_of pred.now)) }
{
    match pred {
        Pred::Compare(col, _, side) => push_comparison(refs, scope, col, side),
        Pred::Between(col, low, high) => refs.push(between(scope, col, low, high)),
        Pred::Within(col, literals) => refs.push(within(scope, col, literals.as_slice())),
        Pred::Like(col, _) => refs.push(of_kind(scope, Kind::Text, col)),
        Pred::And(members) | Pred::Or(members) => push_preds(refs, scope, members),
        Pred::Not(inner) => push_pred(refs, scope, inner),
    }
}

#[cycle(walking)]
fn push_preds(refs: &mut Listed<Reference>, scope: &Scope, members: &[Pred]) -> Result<(), Memory>
    ensures { OnOk result (refs.new ≡ refs.old ++ spec.member_references scope.now (plains (map plain_of members.now))) }
{
    for member in members {
        push_pred(refs, scope, member)?;
    }
    Ok(())
}

fn push_filter(
    refs: &mut Listed<Reference>,
    scope: &Scope,
    filter: &Option<Pred>,
) -> Result<(), Memory>
    ensures { OnOk result (refs.new ≡ refs.old ++ spec.filter_references scope.now (option_map plain_of filter.now)) }
{
    match filter {
        Some(pred) => push_pred(refs, scope, pred),
        None => Ok(()),
    }
}

fn push_having(
    refs: &mut Listed<Reference>,
    scope: &Scope,
    having: &Option<Having>,
) -> Result<(), Memory>
    ensures { OnOk result (refs.new ≡ refs.old ++ spec.having_references scope.now having.now) }
{
    match having {
        Some(having) => match &having.agg {
            Agg::Sum(col) => refs.push(of_kind(scope, Kind::Number, col)),
            Agg::Count => Ok(()),
        },
        None => Ok(()),
    }
}

fn push_dims(refs: &mut Listed<Reference>, scope: &Scope, dims: &[SkyDim]) -> Result<(), Memory>
    ensures { OnOk result (refs.new ≡ refs.old ++ map (spec.dim_reference scope.now) dims.now) }
{
    for dim in dims {
        refs.push(of_kind(scope, Kind::Number, &dim.col))?;
    }
    Ok(())
}

fn push_tail(refs: &mut Listed<Reference>, scope: &Scope, tail: &Tail) -> Result<(), Memory>
    ensures { OnOk result (refs.new ≡ refs.old ++ spec.tail_references scope.now tail.now) }
{
    match tail {
        Tail::Nothing => Ok(()),
        Tail::Top {
            by,
            descending: _,
            limit: _,
        } => refs.push(mere(scope, by)),
        Tail::Group { keys, having } => {
            push_columns(refs, scope, keys.as_slice())?;
            push_having(refs, scope, having)
        }
        Tail::Skyline { dims } => push_dims(refs, scope, dims.as_slice()),
    }
}

/// What stands at each column reference, in the order of the text.
pub(crate) fn references_of(
    alloc: Global,
    scope: &Scope,
    query: &Query,
) -> Result<Listed<Reference>, Memory>
    ensures { IfOk result (λ refs. refs ≡ spec.references_of scope.now (select_of query.now)) }
{
    let mut refs = Listed::new(alloc);
    push_items(&mut refs, scope, query.items.as_slice())?;
    push_source(&mut refs, scope, &query.source)?;
    push_filter(&mut refs, scope, &query.filter)?;
    push_tail(&mut refs, scope, &query.tail)?;
    Ok(refs)
}
