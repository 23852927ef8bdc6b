ghost use Rattle.std.specs.Prelude.{◌≡◌, ℕ, ◌<◌, ◌^◌, ◌++◌, ◌∷◌, [], List, IfOk, OnOk, OnErr, length};
ghost use Rattle.std.specs.Ordering.{int_cmp};
ghost use Rattle.std.specs.Cmp.Lexicographic.{slice_cmp};
ghost use Rattle.ch_lists.specs.Ordered.{once};
ghost use Rattle.ch_pred.specs.Sound.{IsCarried};
ghost use Rattle.ch_pred.specs.declared.bound.Bound.{Bound as Query};
ghost use Rattle.ch_pred.specs.declared.bound.Shape.TheVariants as shape;
ghost use Rattle.ch_cover.specs.Rows.{Row};
ghost use Rattle.ch_words.specs.Readings.{NamesOnly};
ghost use Rattle.ch_fold_lines.specs.AnswerLines.{TellAnswer};
ghost use Rattle.ch_fold_lines.specs.Rows.{RowFits, held_lines};
ghost use Rattle.ch_fold_lines.specs.Distinct.{StandsForDistinct};

use crate::answer_lines::AnswerLines;
use crate::places::printed_places;
use ch_cells::{Listed, Memory};
use ch_flat::picked;
use ch_keys::Keys;
use ch_pred::Bound;
use ch_ranks::Ranks;
use ch_word_cells::holds_on_row;
use std::alloc::Global;

/// What is kept of the rows of a DISTINCT: the different lines that those that hold print.
#[derive(Drop)]
pub struct DistinctFold {
    alloc: Global,
    /// Where the printed words stand in a row.
    places: Listed<usize>,
    lines: Keys,
}

impl DistinctFold {
    pub fn new(alloc: Global, query: &Bound) -> Result<DistinctFold, Memory>
        requires shape { query.now.shape ≡ shape.Distinct }
        ensures { (texts : List (List ℕ)) → IfOk result (λ fold. StandsForDistinct texts query.now fold []) }
    {
        let places = printed_places(alloc, query)?;
        Ok(DistinctFold {
            alloc,
            places,
            lines: Keys::new(alloc),
        })
    }

    /// The number of different lines.
    pub fn size(&self) -> usize
        ensures { (texts : List (List ℕ)) (b : Query) (rows : List Row) → StandsForDistinct texts b self.now rows
            → result ≡ length (once (slice_cmp int_cmp) (held_lines texts b rows)) }
    {
        self.lines.len()
    }

    /// Takes a row in, if it holds and prints something new.
    pub fn add(
        &mut self,
        query: &Bound,
        ranks: &Ranks,
        side: u8,
        words: &[i64],
    ) -> Result<(), Memory>
        requires names { NamesOnly (IsCarried query.now) query.now }
        requires fits { RowFits ranks.now query.now side words.now }
        requires room { (rows : List Row) × StandsForDistinct ranks.now query.now self.old rows × (length rows < 2 ^ 63) }
        ensures ok { (rows : List Row) (r : Row) → StandsForDistinct ranks.now query.now self.old rows → r.side ≡ side → r.words ≡ words.now
            → OnOk result (StandsForDistinct ranks.now query.now self.new (rows ++ r ∷ [])) }
        ensures err { OnErr result (self.new ≡ self.old) }
    {
        if side != 0 || !holds_on_row(query, ranks, words) {
            return Ok(());
        }
        let line = picked(self.alloc, words, self.places.as_slice())?;
        self.lines.add(line)
    }

    /// The lines of the answer.
    pub fn lines(&self, alloc: Global) -> Result<AnswerLines<'_>, Memory>
        ensures { (texts : List (List ℕ)) (b : Query) (rows : List Row) → NamesOnly (IsCarried b) b → StandsForDistinct texts b self.now rows
            → IfOk result (λ lines. TellAnswer texts b rows lines) }
    {
        let lines = self.lines.sorted(alloc)?;
        Ok(AnswerLines::InOrder(lines))
    }
}
