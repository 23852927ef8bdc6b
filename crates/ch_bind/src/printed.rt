ghost use Rattle.std.specs.Prelude.{◌≡◌, ◌++◌, ◌∷◌, [], map, length, IfOk, OnOk};
ghost use Rattle.ch_bind.specs.Binding as spec;

use crate::scope::{Candidate, Scope, col_of};
use ch_cells::{Bytes, Header, Listed, Memory};
use ch_pred::{Col, Printed};
use ch_sql::Item;
use std::alloc::Global;

/// All columns of a table.
fn push_all(printed: &mut Listed<Printed>, side: u8, table: &Candidate) -> Result<(), Memory>
    ensures { OnOk result (printed.new ≡ printed.old ++ spec.all_printed side table.now) }
{
    for at in 0..table.header.len() {
        printed.push(Printed::Column(Col { side, at }))?;
    }
    Ok(())
}

fn push_printed(printed: &mut Listed<Printed>, scope: &Scope, item: &Item) -> Result<(), Memory>
    ensures { OnOk result (printed.new ≡ printed.old ++ spec.item_printed scope.now item.now) }
{
    match item {
        Item::Star => {
            push_all(printed, 0, &scope.first)?;
            if scope.is_join {
                push_all(printed, 1, &scope.second)
            } else {
                Ok(())
            }
        }
        Item::Column(col) => printed.push(Printed::Column(col_of(scope, col))),
        Item::Max(_) | Item::Min(_) => printed.push(Printed::Best),
    }
}

/// What stands in the columns of the answer.
pub(crate) fn printed_of(
    alloc: Global,
    scope: &Scope,
    items: &[Item],
) -> Result<Listed<Printed>, Memory>
    ensures { IfOk result (λ printed. printed ≡ spec.printed_of scope.now items.now) }
{
    let mut printed = Listed::new(alloc);
    for item in items {
        push_printed(&mut printed, scope, item)?;
    }
    Ok(printed)
}

/// The names of all columns of a table.
fn push_header(alloc: Global, names: &mut Header, table: &Candidate) -> Result<(), Memory>
    ensures { OnOk result (names.new ≡ names.old ++ table.now.header) }
{
    for at in 0..table.header.len() {
        names.push(Bytes::from_slice(alloc, table.header.name(at))?)?;
    }
    Ok(())
}

/// The name of a best value.
fn best_name(alloc: Global, word: &[u8], name: &[u8]) -> Result<Bytes, Memory>
    ensures { IfOk result (λ text. text ≡ word.now ++ name.now ++ spec.close) }
{
    let mut text = Vec::from_slice(alloc, word)?;
    text.extend_from_slice(name)?;
    text.push(b')')?;
    Ok(Bytes::from_vec(text))
}

fn push_names(alloc: Global, names: &mut Header, scope: &Scope, item: &Item) -> Result<(), Memory>
    ensures { OnOk result (names.new ≡ names.old ++ spec.item_names scope.now item.now) }
{
    match item {
        Item::Star => {
            push_header(alloc, names, &scope.first)?;
            if scope.is_join {
                push_header(alloc, names, &scope.second)
            } else {
                Ok(())
            }
        }
        Item::Column(col) => names.push(Bytes::from_slice(alloc, col.name.as_slice())?),
        Item::Max(col) => names.push(best_name(alloc, b"MAX(", col.name.as_slice())?),
        Item::Min(col) => names.push(best_name(alloc, b"MIN(", col.name.as_slice())?),
    }
}

/// The names of the answer's columns.
pub(crate) fn header_of(alloc: Global, scope: &Scope, items: &[Item]) -> Result<Header, Memory>
    ensures { IfOk result (λ names. names ≡ spec.header_of scope.now items.now) }
{
    let mut names = Listed::new(alloc);
    for item in items {
        push_names(alloc, &mut names, scope, item)?;
    }
    Ok(names)
}
