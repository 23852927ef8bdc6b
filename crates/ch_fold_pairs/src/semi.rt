ghost use Rattle.std.specs.Prelude.{◌≡◌, ℕ, ◌+◌, ◌<◌, ◌≤◌, ◌^◌, ◌++◌, ◌∷◌, [], List, IfOk, OnOk, OnErr, map, length};
ghost use Rattle.std.specs.Ordering.{int_cmp};
ghost use Rattle.ch_lists.specs.Ordered.{once};
ghost use Rattle.ch_cover.specs.Rows.{Row};
ghost use Rattle.ch_pred.specs.Meaning.{at};
ghost use Rattle.ch_pred.specs.Sound.{IsCarried};
ghost use Rattle.ch_pred.specs.declared.bound.Bound.{Bound as Query};
ghost use Rattle.ch_pred.specs.declared.bound.Shape.TheVariants as shape;
ghost use Rattle.ch_words.specs.Readings.{NamesOnly};
ghost use Rattle.ch_words.specs.Rows.{side_seen};
ghost use Rattle.ch_fold_lines.specs.AnswerLines.{TellAnswer};
ghost use Rattle.ch_fold_lines.specs.Rows.{RowFits, held};
ghost use Rattle.ch_fold_pairs.specs.Lines.{matched_lines};

use crate::lines::Lines;
use crate::words::Words;
use ch_cells::{Listed, Memory};
use ch_flat::{Rows, Sorted, word_at};
use ch_fold_lines::{AnswerLines, printed_places, word_place};
use ch_pred::{Bound, Col};
use ch_ranks::Ranks;
use ch_word_cells::holds_on_row;
use std::alloc::Global;

/// What is kept of the rows of a semi-join: of each outer row that holds what it prints and its key, and the different keys
/// of the inner rows.
#[derive(Drop)]
pub struct SemiFold {
    /// How many words are printed.
    width: usize,
    /// Where the printed words stand in an outer row, and its key's word.
    places: Listed<usize>,
    /// Where the key's word stands in an inner row.
    inner_place: usize,
    outer: Rows,
    inner: Words,
    ghost small: { length outer.rows + length inner ≤ 2 ^ 63 },
}

/// The first so many words of each row whose next word is an inner key.
fn matched(alloc: Global, width: usize, outer: &Sorted<'_>, inner: &Words) -> Result<Lines, Memory>
    ensures { IfOk result (λ lines. lines ≡ record { width = width; rows = matched_lines width inner.now outer.now }) }
{
    let mut lines = Lines::new(alloc, width)?;
    for at in 0..outer.len() {
        let row = outer.row(at);
        if inner.has(word_at(row, width)) {
            lines.push(row)?;
        }
    }
    Ok(lines)
}

impl SemiFold {
    ghost use Rattle.ch_fold_pairs.specs.Semi.{StandsForSemi};

    pub fn new(alloc: Global, query: &Bound, key: Col, inner: Col) -> Result<SemiFold, Memory>
        requires shape { query.now.shape ≡ shape.Semi key inner }
        ensures { (texts : List (List ℕ)) → IfOk result (λ fold. StandsForSemi texts query.now fold []) }
    {
        let mut places = printed_places(alloc, query)?;
        let width = places.len();
        places.push(word_place(query, key))?;
        let outer = Rows::new(alloc, places.len());
        Ok(SemiFold {
            width,
            places,
            inner_place: word_place(query, inner),
            outer,
            inner: Words::new(alloc),
        })
    }

    /// The outer rows that hold and the different inner keys, counted together.
    pub fn size(&self) -> u64
        ensures { (texts : List (List ℕ)) (b : Query) (rows : List Row) → (s : StandsForSemi texts b self.now rows)
            → result ≡ length (held texts b rows) + length (once int_cmp (map (λ r. at r s.within) (side_seen b 1 rows))) }
    {
        self.outer.len() as u64 + self.inner.len() as u64
    }

    /// Takes a row in: an outer one, if it holds, or the key of an inner one.
    pub fn add(
        &mut self,
        query: &Bound,
        ranks: &Ranks,
        side: u8,
        words: &[i64],
    ) -> Result<(), Memory>
        requires names { NamesOnly (IsCarried query.now) query.now }
        requires fits { RowFits ranks.now query.now side words.now }
        requires room { (rows : List Row) × StandsForSemi ranks.now query.now self.old rows × (length rows < 2 ^ 63) }
        ensures ok { (rows : List Row) (r : Row) → StandsForSemi ranks.now query.now self.old rows → r.side ≡ side → r.words ≡ words.now
            → OnOk result (StandsForSemi ranks.now query.now self.new (rows ++ r ∷ [])) }
        ensures err { OnErr result (self.new ≡ self.old) }
    {
        if side == 1 {
            return self.inner.add(word_at(words, self.inner_place));
        }
        if side != 0 || !holds_on_row(query, ranks, words) {
            return Ok(());
        }
        self.outer.push_picked(words, self.places.as_slice())
    }

    /// The lines of the answer.
    pub fn lines(&self, alloc: Global) -> Result<AnswerLines<'_>, Memory>
        ensures { (texts : List (List ℕ)) (b : Query) (rows : List Row) → NamesOnly (IsCarried b) b → StandsForSemi texts b self.now rows
            → IfOk result (λ lines. TellAnswer texts b rows lines) }
    {
        let outer = self.outer.sorted(alloc)?;
        let lines = matched(alloc, self.width, &outer, &self.inner)?;
        Ok(AnswerLines::Made(lines.into_rows()))
    }
}
