ghost use Rattle.std.specs.Prelude.{◌≡◌, ℕ, ◌<◌, ◌^◌, ◌++◌, ◌∷◌, [], List, IfOk, OnOk, OnErr, length};
ghost use Rattle.ch_pred.specs.Sound.{IsCarried};
ghost use Rattle.ch_pred.specs.declared.bound.Bound.{Bound as Query};
ghost use Rattle.ch_pred.specs.declared.bound.Shape.TheVariants as shape;
ghost use Rattle.ch_cover.specs.Rows.{Row};
ghost use Rattle.ch_words.specs.Readings.{NamesOnly};
ghost use Rattle.ch_fold_lines.specs.AnswerLines.{TellAnswer};
ghost use Rattle.ch_fold_lines.specs.Rows.{RowFits, held_lines};
ghost use Rattle.ch_fold_lines.specs.Filter.{StandsForFilter};

use crate::answer_lines::AnswerLines;
use crate::places::printed_places;
use ch_cells::{Listed, Memory};
use ch_flat::Rows;
use ch_pred::Bound;
use ch_ranks::Ranks;
use ch_word_cells::holds_on_row;
use std::alloc::Global;

/// What is kept of the rows of a filter: what those that hold print.
#[derive(Drop)]
pub struct FilterFold {
    /// Where the printed words stand in a row.
    places: Listed<usize>,
    lines: Rows,
}

impl FilterFold {
    pub fn new(alloc: Global, query: &Bound) -> Result<FilterFold, Memory>
        requires shape { query.now.shape ≡ shape.Filter }
        ensures { (texts : List (List ℕ)) → IfOk result (λ fold. StandsForFilter texts query.now fold []) }
    {
        let places = printed_places(alloc, query)?;
        let lines = Rows::new(alloc, places.len());
        Ok(FilterFold { places, lines })
    }

    /// The number of rows that hold.
    pub fn size(&self) -> usize
        ensures { (texts : List (List ℕ)) (b : Query) (rows : List Row) → StandsForFilter texts b self.now rows → result ≡ length (held_lines texts b rows) }
    {
        self.lines.len()
    }

    /// Takes a row in, if it holds.
    pub fn add(
        &mut self,
        query: &Bound,
        ranks: &Ranks,
        side: u8,
        words: &[i64],
    ) -> Result<(), Memory>
        requires names { NamesOnly (IsCarried query.now) query.now }
        requires fits { RowFits ranks.now query.now side words.now }
        requires room { (rows : List Row) × StandsForFilter ranks.now query.now self.old rows × (length rows < 2 ^ 63) }
        ensures ok { (rows : List Row) (r : Row) → StandsForFilter ranks.now query.now self.old rows → r.side ≡ side → r.words ≡ words.now
            → OnOk result (StandsForFilter ranks.now query.now self.new (rows ++ r ∷ [])) }
        ensures err { OnErr result (self.new ≡ self.old) }
    {
        if side != 0 || !holds_on_row(query, ranks, words) {
            return Ok(());
        }
        self.lines.push_picked(words, self.places.as_slice())
    }

    /// The lines of the answer.
    pub fn lines(&self) -> AnswerLines<'_>
        ensures { (texts : List (List ℕ)) (b : Query) (rows : List Row) → NamesOnly (IsCarried b) b → StandsForFilter texts b self.now rows → TellAnswer texts b rows result }
    {
        AnswerLines::Kept(&self.lines)
    }
}
