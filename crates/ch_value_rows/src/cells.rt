//! Spellings, and the order of cells and of rows.
use crate::reading::{cell_of, cells_of, cut, rows_of};
use ch_cells::{
    Bytes, Row, cmp_cells, cmp_rows, copy_cell, copy_row, lend_cell, read_number, sort_rows,
};
use std::alloc::Global;

pub(crate) fn number(alloc: Global, said: &str) -> anyhow::Result<String> {
    let number = read_number(said.as_bytes());
    Ok(format!(in alloc; "{number:?}\n")?)
}

pub(crate) fn cells(alloc: Global, said: &str) -> anyhow::Result<String> {
    let cells = cells_of(alloc, said)?;
    let mut lines = String::new(alloc);
    for a in cells.as_slice() {
        let copy = copy_cell(alloc, a)?;
        let same = cmp_cells(&copy, a);
        drop(copy);
        lines.push_str(format!(in alloc; "copy {same:?}, all")?.as_str())?;
        for b in cells.as_slice() {
            let order = cmp_cells(a, b);
            lines.push_str(format!(in alloc; " {order:?}")?.as_str())?;
        }
        lines.push('\n')?;
    }
    Ok(lines)
}

pub(crate) fn lend(alloc: Global, said: &str) -> anyhow::Result<String> {
    let cell = cell_of(alloc, said)?;
    let line = format!(in alloc; "{:?}\n", lend_cell(&cell));
    drop(cell);
    Ok(line?)
}

pub(crate) fn bytes(alloc: Global, said: &str) -> anyhow::Result<String> {
    let (first, second) = cut(said, " ");
    let a = Bytes::from_slice(alloc, first.as_bytes())?;
    let b = Bytes::from_slice(alloc, second.as_bytes())?;
    let (itself, other) = (a == a, a != b);
    let (order, back) = (a.cmp(&b), b.partial_cmp(&a));
    Ok(format!(in alloc; "{itself} {other} {order:?} {back:?}\n")?)
}

/// A row, how it compares with the wanted one, whether it is that, and how its copy compares with it.
fn push_row(alloc: Global, lines: &mut String, found: &Row, wanted: &Row) -> anyhow::Result<()> {
    let order = cmp_rows(found, wanted);
    let same = *found == *wanted;
    let copy = copy_row(alloc, found)?;
    let again = cmp_rows(&copy, found);
    let row = found.as_slice();
    let line = format!(in alloc; "{row:?} {order:?} {same}, copy {again:?}\n")?;
    lines.push_str(line.as_str())?;
    Ok(())
}

pub(crate) fn sort(alloc: Global, said: &str) -> anyhow::Result<String> {
    let (first, second) = cut(said, " as ");
    let mut rows = rows_of(alloc, first)?;
    let wanted = rows_of(alloc, second)?;
    sort_rows(&mut rows)?;
    let (have, want) = (rows.len(), wanted.len());
    let mut lines = format!(in alloc; "{have} rows of {want}\n")?;
    for (found, wanted) in rows.iter().zip(wanted.iter()) {
        push_row(alloc, &mut lines, found, wanted)?;
    }
    Ok(lines)
}
