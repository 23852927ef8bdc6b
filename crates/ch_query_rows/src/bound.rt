//! What binding a query to the tables gives.
ghost use Rattle.ch_bind.specs.Shapes.{AreShapes};

use crate::queries::query_of;
use ch_bind::{TableShape, bind, check_sums};
use ch_cells::Listed;
use ch_pred::Bound;
use ch_tables::Table;
use std::alloc::Global;
use std::str;

/// The names of the answer with commas between them, the numbers of the tables, and their carried columns.
fn shown(alloc: Global, bound: &Bound) -> anyhow::Result<String> {
    let mut text = String::new(alloc);
    text.push_str("ok")?;
    let mut before = ' ';
    for name in bound.header.as_slice() {
        text.push(before)?;
        text.push_str(str::from_utf8(name.as_slice())?)?;
        before = ',';
    }
    let tables = format!(in alloc; " of {:?}", bound.tables.as_slice())?;
    text.push_str(tables.as_str())?;
    for carried in bound.carried.as_slice() {
        let carried = format!(in alloc; " carried {:?}", carried.as_slice())?;
        text.push_str(carried.as_str())?;
    }
    Ok(text)
}

/// What binding gives, and what the sums of the bound query are refused for.
pub(crate) fn bind_text(
    alloc: Global,
    text: &[u8],
    tables: &Listed<Table>,
    shapes: &Listed<TableShape>,
) -> anyhow::Result<String>
    requires { AreShapes shapes.now }
{
    let query = query_of(alloc, text)?;
    match bind(alloc, &query, shapes) {
        Ok(bound) => {
            let text = shown(alloc, &bound)?;
            match check_sums(&bound, tables) {
                Ok(()) => Ok(text),
                Err(error) => Ok(format!(in alloc; "{text}, {error:?}")?),
            }
        }
        Err(error) => Ok(format!(in alloc; "{error:?}")?),
    }
}
