ghost use Rattle.std.specs.Prelude.{◌≡◌, ◌<◌, ℕ, All, bytes_eq, length, slice_index_or, true, IfOk};
ghost use Rattle.std.specs.List.{list_any};
ghost use Rattle.ch_pred.specs.Part.{part_of};
ghost use Rattle.ch_pred.specs.Plain.{plain_of};
ghost use Rattle.ch_table_words.specs.RowWords.{ranks_of};
ghost use Rattle.ch_tables.specs.Texts.{texts_of};
ghost use Rattle.ch_parts.specs.Scanned.{AreTables};
ghost use Rattle.ch_parts.specs.Tidy.{IsSideOf};

use ch_cells::Memory;
use ch_parts::Side;
use ch_pred::Bound;
use ch_ranks::Ranks;
use ch_table_words::{own_part, text_ranks};
use ch_tables::Table;
use std::alloc::Global;

/// What the workers of a side share.
fn new_side(
    alloc: Global,
    bound: &Bound,
    table: &Table,
    ranks: &Ranks,
    side: u8,
) -> Result<Side, Memory>
    requires { All (λ text. list_any (bytes_eq text) ranks.now ≡ true) (texts_of table.now) }
    ensures own { IfOk result (λ s. plain_of s.own ≡ part_of (plain_of bound.now.filter) side) }
    ensures places { IfOk result (λ s. s.places ≡ ranks_of ranks.now (texts_of table.now)) }
{
    let places = text_ranks(alloc, table, ranks)?;
    let own = own_part(alloc, &bound.filter, side)?;
    Ok(Side { own, places })
}

/// What the workers of each side share.
pub(crate) fn new_sides(
    alloc: Global,
    bound: &Bound,
    tables: &[Table],
    ranks: &Ranks,
) -> Result<Vec<Side>, Memory>
    requires { AreTables ranks.now bound.now tables.now }
    ensures many { IfOk result (λ sides. length sides.items ≡ length bound.now.tables) }
    ensures each { IfOk result (λ sides. (side : ℕ) (d : _) → side < length bound.now.tables → IsSideOf ranks.now bound.now tables.now side (slice_index_or sides.items side d)) }
{
    let mut sides = Vec::with_capacity(alloc, bound.tables.len())?;
    for number in bound.tables.as_slice() {
        let side = sides.len() as u8;
        sides.push(new_side(alloc, bound, &tables[*number as usize], ranks, side)?)?;
    }
    Ok(sides)
}
