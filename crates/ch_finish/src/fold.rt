ghost use Rattle.std.specs.Prelude.{◌≡◌, ℕ, ◌<◌, ◌^◌, ◌++◌, ◌∷◌, [], List, IfOk, OnOk, OnErr, length};
ghost use Rattle.ch_cover.specs.Rows.{Row};
ghost use Rattle.ch_pred.specs.Sound.{IsSound};
ghost use Rattle.ch_pred.specs.declared.bound.Bound.{Bound as Query};
ghost use Rattle.ch_print.specs.AnswerText.{text_of};
ghost use Rattle.ch_fold_lines.specs.AnswerLines.{TellAnswer};
ghost use Rattle.ch_fold_lines.specs.Rows.{RowFits, answer_read};
ghost use Rattle.ch_finish.specs.Fold.{StandsFor, kept_size};

use ch_cells::{Answer, Bytes, Memory};
use ch_fold_groups::{GroupFold, HavingFold};
use ch_fold_lines::{AnswerLines, DistinctFold, FilterFold, answer_of_lines, text_of_lines};
use ch_fold_orders::{SkylineFold, TopFold};
use ch_fold_pairs::{JoinFold, SemiFold};
use ch_pred::{Bound, Shape};
use ch_ranks::Ranks;
use std::alloc::Global;

/// What is kept of the rows of each kind.
enum Kept {
    Filter(FilterFold),
    Distinct(DistinctFold),
    Top(TopFold),
    Group(GroupFold),
    Having(HavingFold),
    Join(JoinFold),
    Skyline(SkylineFold),
    Semi(SemiFold),
}

impl Drop for Kept {
    fn drop(self) {
        match self {
            Kept::Filter(_) => {}
            Kept::Distinct(_) => {}
            Kept::Top(_) => {}
            Kept::Group(_) => {}
            Kept::Having(_) => {}
            Kept::Join(_) => {}
            Kept::Skyline(_) => {}
            Kept::Semi(_) => {}
        }
    }
}

/// The master's fold: what is kept of the rows that came so far, and not the rows.
#[derive(Drop)]
pub struct Fold {
    kept: Kept,
}

impl Fold {
    /// The fold of no rows.
    pub fn new(alloc: Global, query: &Bound) -> Result<Fold, Memory>
        ensures { (texts : List (List ℕ)) → IfOk result (λ fold. StandsFor texts query.now fold []) }
    {
        match &query.shape {
            Shape::Filter => {
                let fold = FilterFold::new(alloc, query)?;
                Ok(Fold {
                    kept: Kept::Filter(fold),
                })
            }
            Shape::Distinct => {
                let fold = DistinctFold::new(alloc, query)?;
                Ok(Fold {
                    kept: Kept::Distinct(fold),
                })
            }
            Shape::Top {
                by,
                descending,
                limit,
            } => {
                let fold = TopFold::new(alloc, query, *by, *descending, *limit)?;
                Ok(Fold {
                    kept: Kept::Top(fold),
                })
            }
            Shape::Group { keys, max, value } => {
                let fold = GroupFold::new(alloc, query, keys.as_slice(), *max, *value)?;
                Ok(Fold {
                    kept: Kept::Group(fold),
                })
            }
            Shape::Having { keys, sum, above } => {
                let fold = HavingFold::new(alloc, query, keys.as_slice(), *sum, *above)?;
                Ok(Fold {
                    kept: Kept::Having(fold),
                })
            }
            Shape::Join { left, right } => {
                let fold = JoinFold::new(alloc, query, *left, *right)?;
                Ok(Fold {
                    kept: Kept::Join(fold),
                })
            }
            Shape::Skyline { dims } => {
                let fold = SkylineFold::new(alloc, query, dims)?;
                Ok(Fold {
                    kept: Kept::Skyline(fold),
                })
            }
            Shape::Semi { key, inner } => {
                let fold = SemiFold::new(alloc, query, *key, *inner)?;
                Ok(Fold {
                    kept: Kept::Semi(fold),
                })
            }
        }
    }

    /// Takes a row in. The later calls need the same query and ranks.
    pub fn add(
        &mut self,
        query: &Bound,
        ranks: &Ranks,
        side: u8,
        words: &[i64],
    ) -> Result<(), Memory>
        requires sound { IsSound query.now }
        requires fits { RowFits ranks.now query.now side words.now }
        requires room { (rows : List Row) × StandsFor ranks.now query.now self.old rows × (length rows < 2 ^ 63) }
        ensures ok { (rows : List Row) (r : Row) → StandsFor ranks.now query.now self.old rows → r.side ≡ side → r.words ≡ words.now
            → OnOk result (StandsFor ranks.now query.now self.new (rows ++ r ∷ [])) }
        ensures err { OnErr result (self.new ≡ self.old) }
    {
        match &mut self.kept {
            Kept::Filter(fold) => fold.add(query, ranks, side, words),
            Kept::Distinct(fold) => fold.add(query, ranks, side, words),
            Kept::Top(fold) => fold.add(query, ranks, side, words),
            Kept::Group(fold) => fold.add(query, ranks, side, words),
            Kept::Having(fold) => fold.add(query, ranks, side, words),
            Kept::Join(fold) => fold.add(side, words),
            Kept::Skyline(fold) => fold.add(query, ranks, side, words),
            Kept::Semi(fold) => fold.add(query, ranks, side, words),
        }
    }

    /// How many entries are kept.
    pub fn size(&self) -> u64
        ensures { (texts : List (List ℕ)) (b : Query) (rows : List Row) → StandsFor texts b self.now rows → result ≡ kept_size texts b b.shape rows }
    {
        match &self.kept {
            Kept::Filter(fold) => fold.size() as u64,
            Kept::Distinct(fold) => fold.size() as u64,
            Kept::Top(fold) => fold.size() as u64,
            Kept::Group(fold) => fold.size() as u64,
            Kept::Having(fold) => fold.size() as u64,
            Kept::Join(fold) => fold.size(),
            Kept::Skyline(fold) => fold.size() as u64,
            Kept::Semi(fold) => fold.size(),
        }
    }

    /// The lines of the answer over the rows that came so far.
    fn lines(&self, alloc: Global, query: &Bound, ranks: &Ranks) -> Result<AnswerLines<'_>, Memory>
        requires sound { IsSound query.now }
        requires stands { (rows : List Row) × StandsFor ranks.now query.now self.now rows }
        ensures { (rows : List Row) → StandsFor ranks.now query.now self.now rows → IfOk result (λ lines. TellAnswer ranks.now query.now rows lines) }
    {
        match &self.kept {
            Kept::Filter(fold) => Ok(fold.lines()),
            Kept::Distinct(fold) => fold.lines(alloc),
            Kept::Top(fold) => fold.lines(alloc),
            Kept::Group(fold) => fold.lines(alloc),
            Kept::Having(fold) => fold.lines(alloc),
            Kept::Join(fold) => fold.lines(alloc, query, ranks),
            Kept::Skyline(fold) => fold.lines(alloc),
            Kept::Semi(fold) => fold.lines(alloc),
        }
    }

    /// The answer over the rows that came so far. The fold stays as it is.
    pub fn answer(&self, alloc: Global, query: &Bound, ranks: &Ranks) -> Result<Answer, Memory>
        requires sound { IsSound query.now }
        requires stands { (rows : List Row) × StandsFor ranks.now query.now self.now rows }
        ensures header { IfOk result (λ a. a.header ≡ query.now.header) }
        ensures rows { (rows : List Row) → StandsFor ranks.now query.now self.now rows → IfOk result (λ a. a.rows ≡ answer_read ranks.now query.now rows) }
    {
        let lines = self.lines(alloc, query, ranks)?;
        answer_of_lines(alloc, query, ranks, &lines)
    }

    /// The text of that answer, written row by row: no row of cells is made.
    pub fn text(&self, alloc: Global, query: &Bound, ranks: &Ranks) -> Result<Bytes, Memory>
        requires sound { IsSound query.now }
        requires stands { (rows : List Row) × StandsFor ranks.now query.now self.now rows }
        ensures { (rows : List Row) → StandsFor ranks.now query.now self.now rows
            → IfOk result (λ text. text ≡ text_of (record { header = query.now.header; rows = answer_read ranks.now query.now rows })) }
    {
        let lines = self.lines(alloc, query, ranks)?;
        text_of_lines(alloc, query, ranks, &lines)
    }

    /// How many rows that answer has.
    pub fn answer_len(&self, alloc: Global, query: &Bound, ranks: &Ranks) -> Result<usize, Memory>
        requires sound { IsSound query.now }
        requires stands { (rows : List Row) × StandsFor ranks.now query.now self.now rows }
        ensures { (rows : List Row) → StandsFor ranks.now query.now self.now rows → IfOk result (λ len. len ≡ length (answer_read ranks.now query.now rows)) }
    {
        let lines = self.lines(alloc, query, ranks)?;
        Ok(lines.len())
    }
}
