//! Rows of a table as words: what a worker puts into a packet.
#![tactic(auto)]

mod dictionary;
mod side_row;

ghost use Rattle.std.specs.Prelude.{◌≡◌, ◌<◌, ◌++◌, [], All, bytes_eq, length, map, pos, slice_index_or, true, IfOk, OnOk, OnErr};
ghost use Rattle.std.specs.List.{list_any};
ghost use Rattle.ch_ranks.specs.Dictionary.{rank_in};
ghost use Rattle.ch_tables.specs.Texts.{cell_at, texts_of};
ghost use Rattle.ch_words.specs.Ranks.{word_of};
ghost use Rattle.ch_table_words.specs.RowWords.{ranks_of, row_words};

use ch_cells::{CellRef, Listed, Memory};
use ch_ranks::Ranks;
use ch_tables::Table;
pub use dictionary::{add_texts, dictionaries_have_their_texts};
pub use side_row::{SideRow, own_part, row_bit};
use std::alloc::Global;

/// The rank of each different text of a table, by its place: one look-up for each text, and none for a row.
pub fn text_ranks(alloc: Global, table: &Table, ranks: &Ranks) -> Result<Listed<i64>, Memory>
    requires { All (λ text. list_any (bytes_eq text) ranks.now ≡ true) (texts_of table.now) }
    ensures { IfOk result (λ places. places ≡ ranks_of ranks.now (texts_of table.now)) }
{
    let mut places = Listed::new(alloc);
    for at in 0..table.texts() {
        let rank = ranks.rank(table.text(at)).unwrap();
        places.push(i64::from(rank))?;
    }
    Ok(places)
}

/// The word of a cell: its number, or the rank of its text, which is found by the text's place.
pub fn cell_word(table: &Table, places: &[i64], ranks: &Ranks, part: u32, row: u32, col: u32) -> i64
    requires places { places.now ≡ ranks_of ranks.now (texts_of table.now) }
    requires part { part < length table.now.parts }
    requires row { row < length (slice_index_or table.now.parts part []) }
    requires col { col < length table.now.header }
    ensures { result ≡ word_of ranks.now (cell_at table.now part row col) }
{
    match table.cell(part, row, col) {
        CellRef::Number(n) => n,
        CellRef::Text(_) => places[table.word(part, row, col) as usize],
    }
}

/// Adds the words of a row's cells in some columns. It takes no memory but for the words themselves.
pub fn push_words(
    words: &mut Vec<i64>,
    table: &Table,
    places: &[i64],
    ranks: &Ranks,
    cols: &[u32],
    part: u32,
    row: u32,
) -> Result<(), Memory>
    requires places { places.now ≡ ranks_of ranks.now (texts_of table.now) }
    requires part { part < length table.now.parts }
    requires row { row < length (slice_index_or table.now.parts part []) }
    requires cols { All (λ col. col < length table.now.header) cols.now }
    ensures { OnOk result (words.new.items ≡ words.old.items ++ row_words ranks.now cols.now (slice_index_or (slice_index_or table.now.parts part []) row [])) }
{
    for col in cols {
        words.push(cell_word(table, places, ranks, part, row, *col))?;
    }
    Ok(())
}
