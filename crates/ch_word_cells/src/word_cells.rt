ghost use Rattle.std.specs.Prelude.{◌≡◌};
ghost use Rattle.ch_cells.specs.CellRef.{cell_of};
ghost use Rattle.ch_pred.specs.Meaning.{both};
ghost use Rattle.ch_pred.specs.Sound.{IsCarried};
ghost use Rattle.ch_words.specs.Packets.{kinds_read};
ghost use Rattle.ch_words.specs.Ranks as spec;
ghost use Rattle.ch_words.specs.Ranks.{read_by};
ghost use Rattle.ch_words.specs.Readings.{NamesOnly};
ghost use Rattle.ch_words.specs.Rows.{words_seen};
ghost use Rattle.ch_words.specs.Words.{asked_of_words};
ghost use Rattle.ch_word_cells.specs.Fits.{FitsWord, WordsFit};

use crate::kinds::{carried_of, kind_read, place_in};
use ch_cells::{CellRef, Kind};
use ch_pred::{Bound, Cells, Col, holds};
use ch_ranks::Ranks;

/// The words of a row of the first table, and those of a row of the second, as the cells that they stand for.
#[derive(Drop)]
pub struct WordCells<'a> {
    query: &'a Bound,
    ranks: &'a Ranks,
    first: &'a [i64],
    second: &'a [i64],
    ghost fits: { WordsFit ranks.now query.now (both (words_seen query.now first.now) (words_seen query.now second.now)) },
}

impl<'a> WordCells<'a> {
    pub fn new(
        query: &'a Bound,
        ranks: &'a Ranks,
        first: &'a [i64],
        second: &'a [i64],
    ) -> WordCells<'a>
        requires fits { WordsFit ranks.now query.now (both (words_seen query.now first.now) (words_seen query.now second.now)) }
        ensures query { result.query ≡ query.entry }
        ensures ranks { result.ranks ≡ ranks.entry }
        ensures first { result.first ≡ first.entry }
        ensures second { result.second ≡ second.entry }
    {
        WordCells {
            query,
            ranks,
            first,
            second,
        }
    }
}

impl Cells for WordCells<'_> {
    ghost use Rattle.ch_pred.specs.Meaning.{both};
    ghost use Rattle.ch_pred.specs.Sound.{IsCarried};
    ghost use Rattle.ch_words.specs.Packets.{kinds_read};
    ghost use Rattle.ch_words.specs.Ranks.{read_by};
    ghost use Rattle.ch_words.specs.Readings.{rows_have};
    ghost use Rattle.ch_words.specs.Rows.{words_seen};
    ghost use Rattle.ch_words.specs.Words.{read_row};

    ghost has = { λ r. rows_have r.query.now.shape (IsCarried r.query.now) };

    ghost cell_at = { λ r. read_row (read_by r.ranks.now (kinds_read r.query.now r.query.now.shape)) (both (words_seen r.query.now r.first.now) (words_seen r.query.now r.second.now)) };

    fn cell(&self, side: u8, at: u32) -> CellRef<'_> {
        let words = if side == 0 { self.first } else { self.second };
        let word = word_of(self.query, words, side, at);
        match kind_read(self.query, Col { side, at }) {
            Kind::Number => CellRef::Number(word),
            Kind::Text => lend_text(self.ranks, word),
            Kind::Void => CellRef::Number(word),
        }
    }
}

/// The word of a carried column.
fn word_of(query: &Bound, words: &[i64], side: u8, at: u32) -> i64
    ensures { result ≡ words_seen query.now words.now side at }
{
    match words.get(place_in(carried_of(query, side), at)) {
        Some(word) => *word,
        None => 0,
    }
}

/// The text of a word that is a rank.
fn lend_text(ranks: &Ranks, word: i64) -> CellRef<'_>
    requires { FitsWord ranks.now Kind.Text word }
    ensures { cell_of result ≡ spec.text_cell ranks.now word }
{
    if word < 0 || word >= i64::from(ranks.size()) {
        return CellRef::Number(word);
    }
    CellRef::Text(ranks.text(word as u32).unwrap())
}

/// Whether a row, of the one table or of a semi-join's first, passes the query's filter. It takes no memory.
pub fn holds_on_row(query: &Bound, ranks: &Ranks, words: &[i64]) -> bool
    requires names { NamesOnly (IsCarried query.now) query.now }
    requires fits { WordsFit ranks.now query.now (words_seen query.now words.now) }
    ensures { result ≡ (asked_of_words (read_by ranks.now (kinds_read query.now query.now.shape)) query.now).holds (words_seen query.now words.now) }
{
    holds_on_pair(query, ranks, words, words)
}

/// Whether a pair of rows of a join, the first table's and the second's, passes the query's filter. It takes no memory.
pub fn holds_on_pair(query: &Bound, ranks: &Ranks, first: &[i64], second: &[i64]) -> bool
    requires names { NamesOnly (IsCarried query.now) query.now }
    requires fits { WordsFit ranks.now query.now (both (words_seen query.now first.now) (words_seen query.now second.now)) }
    ensures { result ≡ (asked_of_words (read_by ranks.now (kinds_read query.now query.now.shape)) query.now).holds (both (words_seen query.now first.now) (words_seen query.now second.now)) }
{
    holds(&query.filter, &WordCells::new(query, ranks, first, second))
}
