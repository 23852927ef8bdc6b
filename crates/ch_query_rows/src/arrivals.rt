//! The rows of a query's tables as they arrive.
ghost use Rattle.std.specs.Prelude.{◌<◌, [], length, IfOk, slice_index_or};
ghost use Rattle.ch_lists.specs.Members.{Each};
ghost use Rattle.ch_fold_lines.specs.Rows.{RowFits};

use ch_cells::{CellRef, Listed, Memory};
use ch_finish::{Arrived, Received};
use ch_fold_lines::row_fits;
use ch_pred::Bound;
use ch_ranks::{Ranks, RanksBuilder};
use ch_tables::Table;
use std::alloc::Global;

/// The texts of all tables.
#[tactic(auto, using(crate::proofs::Added::one_more))]
pub(crate) fn dictionary(alloc: Global, tables: &[Table]) -> Result<Ranks, Memory> {
    let mut builder = RanksBuilder::new(alloc);
    let mut added: u32 = 0;
    for table in tables {
        for at in 0..table.texts() {
            if added >= 1_000_000 {
                return Err(Memory);
            }
            builder.add(table.text(at))?;
            added += 1;
        }
    }
    builder.finish()
}

fn word(ranks: &Ranks, cell: CellRef<'_>) -> i64 {
    match cell {
        CellRef::Number(n) => n,
        CellRef::Text(text) => match ranks.rank(text) {
            Some(rank) => i64::from(rank),
            None => -1,
        },
    }
}

/// The words of a row's carried cells.
fn row_words(
    alloc: Global,
    ranks: &Ranks,
    table: &Table,
    cols: &[u32],
    part: u32,
    row: u32,
) -> Result<Listed<i64>, Memory>
    requires part { part < length table.now.parts }
    requires row { row < length (slice_index_or table.now.parts part []) }
{
    let mut words = Listed::new(alloc);
    let width = table.header().len();
    for col in cols {
        if (*col as usize) < width {
            words.push(word(ranks, table.cell(part, row, *col)))?;
        }
    }
    Ok(words)
}

/// Adds a row, if it can be read.
fn take_row(
    query: &Bound,
    ranks: &Ranks,
    rows: &mut Received,
    arrived: Arrived,
) -> Result<(), Memory>
    requires { Each (λ a. RowFits ranks.now query.now a.side a.words) rows.old }
    ensures { Each (λ a. RowFits ranks.now query.now a.side a.words) rows.new }
{
    if !row_fits(query, ranks, arrived.side, arrived.words.as_slice()) {
        return Ok(());
    }
    rows.push(arrived)?;
    Ok(())
}

/// Adds the rows of a side's table.
fn add_rows(
    alloc: Global,
    query: &Bound,
    ranks: &Ranks,
    rows: &mut Received,
    side: u8,
    table: &Table,
    cols: &[u32],
) -> Result<(), Memory>
    requires { Each (λ a. RowFits ranks.now query.now a.side a.words) rows.old }
    ensures { Each (λ a. RowFits ranks.now query.now a.side a.words) rows.new }
{
    for part in 0..table.parts() {
        for row in 0..table.rows(part) {
            let words = row_words(alloc, ranks, table, cols, part, row)?;
            let arrived = Arrived {
                worker: 0,
                side,
                number: row,
                words,
            };
            take_row(query, ranks, rows, arrived)?;
        }
    }
    Ok(())
}

/// The rows of the query's tables, those of the second table first.
pub(crate) fn arrivals(
    alloc: Global,
    query: &Bound,
    ranks: &Ranks,
    tables: &[Table],
) -> Result<Received, Memory>
    ensures { IfOk result (λ rows. Each (λ a. RowFits ranks.now query.now a.side a.words) rows) }
{
    let mut rows = Listed::new(alloc);
    for side in [1u8, 0] {
        let table = match query.tables.as_slice().get(side as usize) {
            Some(number) => tables.get(*number as usize),
            None => None,
        };
        let cols = query.carried.as_slice().get(side as usize);
        if let (Some(table), Some(cols)) = (table, cols) {
            add_rows(alloc, query, ranks, &mut rows, side, table, cols.as_slice())?;
        }
    }
    Ok(rows)
}
