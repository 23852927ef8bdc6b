ghost use Rattle.std.specs.Prelude.{◌≡◌, ℕ, ◌+◌, ◌<◌, ◌≤◌, ◌^◌, ◌++◌, ◌∷◌, [], List, IfOk, OnOk, OnErr, length};
ghost use Rattle.ch_cover.specs.Rows.{Row};
ghost use Rattle.ch_pred.specs.Sound.{IsSound};
ghost use Rattle.ch_pred.specs.declared.bound.Bound.{Bound as Query};
ghost use Rattle.ch_pred.specs.declared.bound.Shape.TheVariants as shape;
ghost use Rattle.ch_words.specs.Rows.{side_seen};
ghost use Rattle.ch_fold_lines.specs.AnswerLines.{TellAnswer};
ghost use Rattle.ch_fold_lines.specs.Rows.{RowFits};

use crate::lines::keyed_places;
use crate::pairs::joined;
use ch_cells::{Listed, Memory};
use ch_flat::Rows;
use ch_fold_lines::AnswerLines;
use ch_pred::{Bound, Col};
use ch_ranks::Ranks;
use ch_word_cells::carried_of;
use std::alloc::Global;

/// What is kept of the rows of a join: all words of the rows of both tables, with their keys in front.
#[derive(Drop)]
pub struct JoinFold {
    /// Where the kept words stand in a row of each table.
    left_places: Listed<usize>,
    right_places: Listed<usize>,
    left: Rows,
    right: Rows,
    ghost small: { length left.rows + length right.rows ≤ 2 ^ 63 },
}

impl JoinFold {
    ghost use Rattle.ch_fold_pairs.specs.Join.{StandsForJoin};

    #[tactic(auto, using(crate::proofs::Firsts::firsts_length))]
    pub fn new(alloc: Global, query: &Bound, left: Col, right: Col) -> Result<JoinFold, Memory>
        requires shape { query.now.shape ≡ shape.Join left right }
        ensures { (texts : List (List ℕ)) → IfOk result (λ fold. StandsForJoin texts query.now fold []) }
    {
        let left_places = keyed_places(alloc, query, left, carried_of(query, 0).len())?;
        let right_places = keyed_places(alloc, query, right, carried_of(query, 1).len())?;
        let left = Rows::new(alloc, left_places.len());
        let right = Rows::new(alloc, right_places.len());
        Ok(JoinFold {
            left_places,
            right_places,
            left,
            right,
        })
    }

    /// The rows of both tables.
    pub fn size(&self) -> u64
        ensures { (texts : List (List ℕ)) (b : Query) (rows : List Row) → StandsForJoin texts b self.now rows
            → result ≡ length (side_seen b 0 rows) + length (side_seen b 1 rows) }
    {
        self.left.len() as u64 + self.right.len() as u64
    }

    /// Takes a row in. Which pairs hold is asked at the answer.
    pub fn add(&mut self, side: u8, words: &[i64]) -> Result<(), Memory>
        requires stands { (texts : List (List ℕ)) × (b : Query) × (rows : List Row) × StandsForJoin texts b self.old rows × RowFits texts b side words.now × (length rows < 2 ^ 63) }
        ensures ok { (texts : List (List ℕ)) (b : Query) (rows : List Row) (r : Row) → StandsForJoin texts b self.old rows → RowFits texts b side words.now → r.side ≡ side → r.words ≡ words.now
            → OnOk result (StandsForJoin texts b self.new (rows ++ r ∷ [])) }
        ensures err { OnErr result (self.new ≡ self.old) }
    {
        if side == 0 {
            return self.left.push_picked(words, self.left_places.as_slice());
        }
        if side == 1 {
            return self.right.push_picked(words, self.right_places.as_slice());
        }
        Ok(())
    }

    /// The lines of the answer: what the pairs print that hold.
    pub fn lines(
        &self,
        alloc: Global,
        query: &Bound,
        ranks: &Ranks,
    ) -> Result<AnswerLines<'_>, Memory>
        requires sound { IsSound query.now }
        requires stands { (rows : List Row) × StandsForJoin ranks.now query.now self.now rows }
        ensures { (rows : List Row) → StandsForJoin ranks.now query.now self.now rows → IfOk result (λ lines. TellAnswer ranks.now query.now rows lines) }
    {
        let left = self.left.sorted(alloc)?;
        let right = self.right.sorted(alloc)?;
        let lines = joined(alloc, query, ranks, &left, &right)?;
        Ok(AnswerLines::Made(lines.into_rows()))
    }
}
