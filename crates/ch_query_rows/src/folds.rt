//! The rows of the tables folded for a query.
ghost use Rattle.ch_bind.specs.Shapes.{AreShapes};
ghost use Rattle.ch_fold_lines.specs.Rows.{RowFits};
ghost use Rattle.ch_lists.specs.Members.{Each};
ghost use Rattle.ch_pred.specs.Sound.{IsSound};

use crate::arrivals::{arrivals, dictionary};
use crate::queries::{query_of, string_of};
use ch_bind::{TableShape, bind};
use ch_cells::{Answer, Listed};
use ch_finish::{Received, finish, folded};
use ch_pred::Bound;
use ch_print::answer_text;
use ch_ranks::Ranks;
use ch_tables::Table;
use std::alloc::Global;

fn text_of(alloc: Global, answer: &Answer) -> anyhow::Result<String> {
    let text = answer_text(alloc, answer)?;
    string_of(alloc, &text)
}

/// The number of entries and the answer of a fold, which is asked for its rows and for its text, and the answer of the rows
/// at once.
fn shown(alloc: Global, query: &Bound, ranks: &Ranks, rows: &Received) -> anyhow::Result<String>
    requires sound { IsSound query.now }
    requires fits { Each (λ a. RowFits ranks.now query.now a.side a.words) rows.now }
{
    let fold = folded(alloc, query, rows, ranks)?;
    let first = text_of(alloc, &fold.answer(alloc, query, ranks)?)?;
    let again = string_of(alloc, &fold.text(alloc, query, ranks)?)?;
    let whole = text_of(alloc, &finish(alloc, query, rows, ranks)?)?;
    let size = fold.size();
    if first == again && again == whole {
        return Ok(format!(in alloc; "{size} kept\n{first}")?);
    }
    Ok(format!(in alloc; "answers differ:\n{first}{again}{whole}")?)
}

/// The number of entries and the answer of the folded rows, or the check that refuses the query.
pub(crate) fn fold_text(
    alloc: Global,
    text: &[u8],
    tables: &Listed<Table>,
    shapes: &Listed<TableShape>,
) -> anyhow::Result<String>
    requires { AreShapes shapes.now }
{
    let query = query_of(alloc, text)?;
    match bind(alloc, &query, shapes) {
        Ok(bound) => {
            let ranks = dictionary(alloc, tables.as_slice())?;
            let rows = arrivals(alloc, &bound, &ranks, tables.as_slice())?;
            shown(alloc, &bound, &ranks, &rows)
        }
        Err(error) => Ok(format!(in alloc; "{error:?}\n")?),
    }
}
