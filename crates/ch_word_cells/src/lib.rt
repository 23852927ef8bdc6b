//! Rows of words as rows of cells: whether a query's filter holds on them, with no memory taken.
#![tactic(auto)]

mod kinds;
mod word_cells;

ghost use Rattle.std.specs.Prelude.{◌≢◌, ℕ, List};
ghost use Rattle.ch_cells.specs.declared.Cell.{Cell};
ghost use Rattle.ch_lists.specs.Members.{In};
ghost use Rattle.ch_pred.specs.Meaning.{both};
ghost use Rattle.ch_pred.specs.declared.bound.Bound.{Bound};
ghost use Rattle.ch_pred.specs.declared.bound.Shape.TheVariants as shape;
ghost use Rattle.ch_pred.specs.declared.pred.Col.{Col};
ghost use Rattle.ch_words.specs.Packets.{AreSound, kinds_read, packed, table_of};
ghost use Rattle.ch_words.specs.Rows.{words_seen};
ghost use Rattle.ch_word_cells.specs.Fits.{WordsFit};

pub use kinds::{carried_of, kind_read, place_in};
pub use word_cells::{WordCells, holds_on_pair, holds_on_row};

/// The words that workers send fit: those of each row of the first table, unless the query is a join, and those of each pair
/// of rows.
pub fn sent_words_fit()
    ensures row { (texts : List (List ℕ)) (b : Bound) (tables : List (List (List Cell))) → AreSound texts (kinds_read b b.shape) b tables
        → ((left right : Col) → b.shape ≢ shape.Join left right) → (row : List Cell) → In row (table_of tables 0) → WordsFit texts b (words_seen b (packed texts b 0 row)) }
    ensures pair { (texts : List (List ℕ)) (b : Bound) (tables : List (List (List Cell))) → AreSound texts (kinds_read b b.shape) b tables
        → (row inner : List Cell) → In row (table_of tables 0) → In inner (table_of tables 1)
        → WordsFit texts b (both (words_seen b (packed texts b 0 row)) (words_seen b (packed texts b 1 inner))) }
{}
