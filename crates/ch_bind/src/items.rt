//! The fifth check: which items a query of a kind may select.
ghost use Rattle.std.specs.Prelude.{◌≡◌, ◌<◌, ◌^◌, List, length, map, option_map, false, IfOk};
ghost use Rattle.std.specs.Option.{option_or};
ghost use Rattle.ch_sql_grammar.specs.Tree.{select_of};
ghost use Rattle.ch_sql_grammar.specs.declared.query.ColumnRef.{ColumnRef};
ghost use Rattle.std.specs.List.{list_any};
ghost use Rattle.ch_bind.specs.Checks as spec;
ghost use Rattle.ch_bind.specs.Keys.{AreKeys};
ghost use Rattle.ch_bind.specs.Marks.{AreMarks};
ghost use Rattle.ch_bind.specs.References.{mere};
ghost use Rattle.ch_bind.specs.declared.error.BindError.TheVariants as error;

use crate::carried::marks_of;
use crate::error::BindError;
use crate::references::push_columns;
use crate::scope::{Found, Scope, found_in};
use ch_cells::{Listed, Memory};
use ch_sql::{ColumnRef, Item, Query, Tail};
use std::alloc::Global;

fn is_best(item: &Item) -> bool
    ensures { result ≡ spec.is_best item.now }
{
    match item {
        Item::Star | Item::Column(_) => false,
        Item::Max(_) | Item::Min(_) => true,
    }
}

fn is_star(item: &Item) -> bool
    ensures { result ≡ spec.is_star item.now }
{
    match item {
        Item::Star => true,
        Item::Column(_) | Item::Max(_) | Item::Min(_) => false,
    }
}

/// Whether a * stands among the items.
pub(crate) fn has_star(items: &[Item]) -> bool
    ensures { result ≡ list_any spec.is_star items.now }
{
    for item in items {
        if is_star(item) {
            return true;
        }
    }
    false
}

fn has_best(items: &[Item]) -> bool
    ensures { result ≡ list_any spec.is_best items.now }
{
    for item in items {
        if is_best(item) {
            return true;
        }
    }
    false
}

/// For each column of the one table of a group, whether it is a key.
fn key_marks(alloc: Global, scope: &Scope, tail: &Tail) -> Result<Vec<bool>, Memory>
    ensures { IfOk result (λ marks. AreKeys marks.items scope.now tail.now) }
{
    match tail {
        Tail::Group { keys, having: _ } => {
            let mut refs = Listed::new(alloc);
            push_columns(&mut refs, scope, keys.as_slice())?;
            marks_of(alloc, scope.first.header.len(), 0, refs.as_slice())
        }
        _ => Ok(Vec::new(alloc)),
    }
}

fn is_marked(scope: &Scope, marks: &[bool], col: &ColumnRef) -> bool
    ensures { (keys : List ColumnRef) → AreMarks marks.now (length scope.now.first.header) 0 (map (mere scope.now) keys) → result ≡ spec.is_key scope.now keys col.now }
{
    match found_in(scope, col) {
        Found::At(col) => {
            if col.side == 0 && (col.at as usize) < marks.len() {
                marks[col.at as usize]
            } else {
                false
            }
        }
        Found::Nowhere | Found::Twice => false,
    }
}

fn group_allows(scope: &Scope, marks: &[bool], behind: bool, item: &Item) -> bool
    ensures { (keys : List ColumnRef) → AreMarks marks.now (length scope.now.first.header) 0 (map (mere scope.now) keys) → result ≡ spec.group_allows scope.now keys behind item.now }
{
    match item {
        Item::Star => false,
        Item::Column(col) => is_marked(scope, marks, col),
        Item::Max(_) | Item::Min(_) => !behind,
    }
}

fn allows(scope: &Scope, marks: &[bool], tail: &Tail, behind: bool, item: &Item) -> bool
    requires { AreKeys marks.now scope.now tail.now }
    ensures { result ≡ spec.allows scope.now tail.now behind item.now }
{
    match tail {
        Tail::Group { keys: _, having } => match having {
            Some(_) => group_allows(scope, marks, true, item),
            None => group_allows(scope, marks, behind, item),
        },
        Tail::Nothing
        | Tail::Top {
            by: _,
            descending: _,
            limit: _,
        }
        | Tail::Skyline { dims: _ } => !is_best(item),
    }
}

/// The first item that isn't allowed behind those before it.
fn refused_item(scope: &Scope, marks: &[bool], tail: &Tail, items: &[Item]) -> Option<u32>
    requires few { length items.now < 2 ^ 32 }
    requires keys { AreKeys marks.now scope.now tail.now }
    ensures { result ≡ spec.refused_item (spec.allows scope.now tail.now) 0 false items.now }
{
    let mut behind = false;
    for at in 0..items.len() as u32 {
        if !allows(scope, marks, tail, behind, &items[at as usize]) {
            return Some(at);
        }
        behind = behind || is_best(&items[at as usize]);
    }
    None
}

/// The place behind the last item of a group that lacks its best value.
fn missing_best(tail: &Tail, items: &[Item]) -> Option<u32>
    requires { length items.now < 2 ^ 32 }
    ensures { result ≡ spec.missing_best tail.now items.now }
{
    match tail {
        Tail::Group { keys: _, having } => match having {
            Some(_) => None,
            None => {
                if has_best(items) {
                    None
                } else {
                    Some(items.len() as u32)
                }
            }
        },
        Tail::Nothing
        | Tail::Top {
            by: _,
            descending: _,
            limit: _,
        }
        | Tail::Skyline { dims: _ } => None,
    }
}

fn item_error(refused: Option<u32>, missing: Option<u32>) -> Option<BindError>
    ensures { result ≡ option_map error.BadItem (option_or refused missing) }
{
    match refused {
        Some(item) => Some(BindError::BadItem { item }),
        None => match missing {
            Some(item) => Some(BindError::BadItem { item }),
            None => None,
        },
    }
}

/// 5: an item isn't allowed.
pub(crate) fn item_refusal(
    alloc: Global,
    scope: &Scope,
    query: &Query,
) -> Result<Option<BindError>, Memory>
    requires { length query.now.items < 2 ^ 32 }
    ensures { IfOk result (λ refusal. refusal ≡ spec.item_refusal scope.now (select_of query.now)) }
{
    let marks = key_marks(alloc, scope, &query.tail)?;
    let items = query.items.as_slice();
    let refused = refused_item(scope, marks.as_slice(), &query.tail, items);
    Ok(item_error(refused, missing_best(&query.tail, items)))
}
