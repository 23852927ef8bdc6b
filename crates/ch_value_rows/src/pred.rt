//! Whether a row passes predicates, and what one table can tell of them.
use crate::lists::one;
use crate::predicates::{TEXT, pred_of};
use crate::reading::cut;
use ch_cells::{Bytes, CellRef, Kind, Memory};
use ch_pred::{Bound, BoundPred, Cells, Printed, Shape, copy_bound, holds, is_exact, part, weak};
use std::alloc::Global;

/// A number in column 0 and a text in every other column.
#[derive(Drop)]
struct Pair {
    number: i64,
    text: &'static [u8],
}

impl Cells for Pair {
    ghost use Rattle.std.specs.Prelude.{◌==◌, if◌then◌else◌};
    ghost use Rattle.ch_cells.specs.declared.Cell.TheVariants.{Number, Text};

    ghost has = { λ row side at. Unit {0} };

    ghost cell_at = { λ row side at. if at == 0 then Number row.number else Text row.text.now };

    fn cell(&self, _side: u8, at: u32) -> CellRef<'_> {
        if at == 0 {
            CellRef::Number(self.number)
        } else {
            CellRef::Text(self.text)
        }
    }
}

/// Whether a row of 5 and `ab` passes a predicate.
fn row_passes(pred: &BoundPred) -> bool {
    let row = Pair {
        number: 5,
        text: b"ab",
    };
    holds(pred, &row)
}

pub(crate) fn passed(alloc: Global, said: &str) -> anyhow::Result<String> {
    let pred = pred_of(alloc, said)?;
    let passes = row_passes(&pred);
    drop(pred);
    Ok(format!(in alloc; "{passes}\n")?)
}

/// The two predicates of a line.
fn two_of(alloc: Global, said: &str) -> anyhow::Result<Vec<BoundPred>> {
    let (first, second) = cut(said, " as ");
    let mut both = Vec::new(alloc);
    both.push(pred_of(alloc, first)?)?;
    both.push(pred_of(alloc, second)?)?;
    Ok(both)
}

pub(crate) fn weak_filter(alloc: Global, said: &str) -> anyhow::Result<String> {
    let (side, said) = cut(said, " ");
    let side = side.parse::<u8>()?;
    let both = two_of(alloc, said)?;
    if let [first, second] = both.as_slice() {
        let weakened = weak(alloc, first, side)?;
        let same = weakened == *second;
        drop(weakened);
        let (before, after) = (is_exact(first), is_exact(second));
        return Ok(format!(in alloc; "{same}, exact {before} {after}\n")?);
    }
    Ok(String::new(alloc))
}

pub(crate) fn side_part(alloc: Global, said: &str) -> anyhow::Result<String> {
    let (side, said) = cut(said, " ");
    let side = side.parse::<u8>()?;
    let both = two_of(alloc, said)?;
    if let [first, second] = both.as_slice() {
        let own = part(alloc, first, side)?;
        let same = own == *second;
        drop(own);
        return Ok(format!(in alloc; "{same}\n")?);
    }
    Ok(String::new(alloc))
}

/// A query that counts the rows of each text.
fn counted(alloc: Global) -> Result<Bound, Memory> {
    let carried = one(alloc, one(alloc, 1)?)?;
    let kinds = one(alloc, one(alloc, Kind::Text)?)?;
    let header = one(alloc, Bytes::from_slice(alloc, b"b")?)?;
    let tables = one(alloc, 0)?;
    let printed = one(alloc, Printed::Column(TEXT))?;
    let keys = one(alloc, TEXT)?;
    Ok(Bound {
        tables,
        carried,
        kinds,
        header,
        printed,
        filter: BoundPred::Truth,
        shape: Shape::Having {
            keys,
            sum: None,
            above: 3,
        },
    })
}

fn is_copied(alloc: Global, query: &Bound) -> Result<bool, Memory> {
    let copy = copy_bound(alloc, query)?;
    let same = copy == *query;
    drop(copy);
    Ok(same)
}

pub(crate) fn copy(alloc: Global, said: &str) -> anyhow::Result<String> {
    let mut query = counted(alloc)?;
    query.filter = pred_of(alloc, said)?;
    let same = is_copied(alloc, &query);
    drop(query);
    Ok(format!(in alloc; "{}\n", same?)?)
}
