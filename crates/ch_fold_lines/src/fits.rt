ghost use Rattle.std.specs.Prelude.{◌≡◌, true, length, pos, ◌≤ℤ◌, ◌<ℤ◌};
ghost use Rattle.ch_words.specs.Packets.{kinds_read};
ghost use Rattle.ch_word_cells.specs.Fits.{FitsWord};
ghost use Rattle.ch_fold_lines.specs.Rows.{RowFits};

use ch_cells::Kind;
use ch_flat::word_at;
use ch_pred::{Bound, Col};
use ch_ranks::Ranks;
use ch_word_cells::{carried_of, kind_read, place_in};

fn is_rank(ranks: &Ranks, word: i64) -> bool
    ensures { result ≡ true → (pos 0 ≤ℤ word) × (word <ℤ pos (length ranks.now)) }
{
    0 <= word && word < i64::from(ranks.size())
}

/// Whether a word of a column can be read.
fn word_fits(query: &Bound, ranks: &Ranks, col: Col, word: i64) -> bool
    ensures { result ≡ true → FitsWord ranks.now (kinds_read query.now query.now.shape col.side col.at) word }
{
    match kind_read(query, col) {
        Kind::Text => is_rank(ranks, word),
        Kind::Number | Kind::Void => true,
    }
}

/// Whether words are a row of a side.
pub fn row_fits(query: &Bound, ranks: &Ranks, side: u8, words: &[i64]) -> bool
    ensures { result ≡ true → RowFits ranks.now query.now side words.now }
{
    let carried = carried_of(query, side);
    if words.len() != carried.len() {
        return false;
    }
    for at in carried {
        let word = word_at(words, place_in(carried, *at));
        if !word_fits(query, ranks, Col { side, at: *at }, word) {
            return false;
        }
    }
    true
}
