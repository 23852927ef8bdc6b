ghost use Rattle.std.specs.Prelude.{◌≡◌, ◌<◌, ◌≤◌, ◌++◌, ℕ, List, All, length, map, slice_index_or, IfOk, OnOk};
ghost use Rattle.ch_pred.specs.declared.bound.Bound.{Bound as RustBound};
ghost use Rattle.ch_tables.specs.TableValue.{TableValue};
ghost use Rattle.ch_parts.specs.Scanned.{AreTables, part_of, parts_of, parts_of_side, parts_of_table, side_table};
ghost use Rattle.ch_parts.specs.Tidy.{IsSource, source_part};

use crate::sides::new_sides;
use ch_cells::Memory;
use ch_parts::{Parts, Source};
use ch_pred::Bound;
use ch_ranks::Ranks;
use ch_tables::Table;
use std::alloc::Global;

/// Adds a worker for each part of a table of a side.
fn push_sources(sources: &mut Vec<Source>, table: &Table, side: u8) -> Result<(), Memory>
    ensures sources { (b : RustBound) (tables : List TableValue) → side < length b.tables → side_table b tables side ≡ table.now → All (IsSource b tables) sources.old.items → OnOk result (All (IsSource b tables) sources.new.items) }
    ensures parts { (texts : List (List ℕ)) (b : RustBound) (tables : List TableValue) → side_table b tables side ≡ table.now
        → OnOk result (map (source_part texts b tables) sources.new.items ≡ map (source_part texts b tables) sources.old.items ++ map (part_of texts b side) table.now.parts) }
{
    for part in 0..table.parts() {
        let rows = table.rows(part);
        sources.push(Source { side, part, rows })?;
    }
    Ok(())
}

/// The number of a side's table.
fn table_number(bound: &Bound, side: usize) -> usize
    requires { side < length bound.now.tables }
    ensures { result ≡ slice_index_or bound.now.tables side 0 }
{
    bound.tables.as_slice()[side] as usize
}

/// Adds the workers of a table, if it is that of a side.
fn push_side(
    sources: &mut Vec<Source>,
    bound: &Bound,
    tables: &[Table],
    number: usize,
    side: usize,
) -> Result<(), Memory>
    requires number { number < length tables.now }
    requires side { side < length bound.now.tables }
    requires sides { length bound.now.tables ≤ 2 }
    ensures sources { All (IsSource bound.now tables.now) sources.old.items → OnOk result (All (IsSource bound.now tables.now) sources.new.items) }
    ensures parts { (texts : List (List ℕ)) → OnOk result (map (source_part texts bound.now tables.now) sources.new.items ≡ map (source_part texts bound.now tables.now) sources.old.items ++ parts_of_side texts bound.now tables.now number side) }
{
    if table_number(bound, side) != number {
        return Ok(());
    }
    push_sources(sources, &tables[number], side as u8)
}

/// Adds the workers of a table, side by side.
fn push_table(
    sources: &mut Vec<Source>,
    bound: &Bound,
    tables: &[Table],
    number: usize,
) -> Result<(), Memory>
    requires number { number < length tables.now }
    requires sides { length bound.now.tables ≤ 2 }
    ensures sources { All (IsSource bound.now tables.now) sources.old.items → OnOk result (All (IsSource bound.now tables.now) sources.new.items) }
    ensures parts { (texts : List (List ℕ)) → OnOk result (map (source_part texts bound.now tables.now) sources.new.items ≡ map (source_part texts bound.now tables.now) sources.old.items ++ parts_of_table texts bound.now tables.now number) }
{
    for side in 0..bound.tables.len() {
        push_side(sources, bound, tables, number, side)?;
    }
    Ok(())
}

/// The workers of all tables, in the order of the tables.
fn new_sources(alloc: Global, bound: &Bound, tables: &[Table]) -> Result<Vec<Source>, Memory>
    requires { length bound.now.tables ≤ 2 }
    ensures sources { IfOk result (λ sources. All (IsSource bound.now tables.now) sources.items) }
    ensures parts { (texts : List (List ℕ)) → IfOk result (λ sources. map (source_part texts bound.now tables.now) sources.items ≡ parts_of texts bound.now tables.now) }
{
    let mut sources = Vec::new(alloc);
    for number in 0..tables.len() {
        push_table(&mut sources, bound, tables, number)?;
    }
    Ok(sources)
}

/// The workers' parts of a query's tables: one look-up for each different text of a table, and none for a row.
pub fn new_parts<'a>(
    alloc: Global,
    tables: &'a [Table],
    bound: &'a Bound,
    ranks: &'a Ranks,
) -> Result<Parts<'a>, Memory>
    requires { AreTables ranks.now bound.now tables.now }
    ensures { IfOk result (λ p. p ≡ parts_of ranks.now bound.now tables.now) }
{
    let sides = new_sides(alloc, bound, tables, ranks)?;
    let sources = new_sources(alloc, bound, tables)?;
    Ok(Parts::over(tables, bound, ranks, sides, sources))
}
