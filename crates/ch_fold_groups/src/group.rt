ghost use Rattle.std.specs.Prelude.{◌≡◌, ℕ, ◌<◌, ◌^◌, ◌++◌, ◌∷◌, [], List, IfOk, OnOk, OnErr, map, length};
ghost use Rattle.std.specs.Ordering.{int_cmp};
ghost use Rattle.std.specs.Cmp.Lexicographic.{slice_cmp};
ghost use Rattle.ch_lists.specs.Ordered.{once};
ghost use Rattle.ch_cover.specs.Rows.{Row};
ghost use Rattle.ch_pred.specs.Meaning.{at_each};
ghost use Rattle.ch_pred.specs.Sound.{IsCarried};
ghost use Rattle.ch_pred.specs.declared.bound.Bound.{Bound as Query};
ghost use Rattle.ch_pred.specs.declared.bound.Shape.TheVariants as shape;
ghost use Rattle.ch_words.specs.Readings.{NamesOnly};
ghost use Rattle.ch_fold_lines.specs.AnswerLines.{TellAnswer};
ghost use Rattle.ch_fold_lines.specs.Rows.{RowFits, held};
ghost use Rattle.ch_fold_groups.specs.Group.{StandsForGroup};

use crate::bests::Bests;
use crate::places::{group_places, key_places};
use ch_cells::{Listed, Memory};
use ch_flat::{picked, word_at};
use ch_fold_lines::{AnswerLines, word_place};
use ch_pred::{Bound, Col};
use ch_ranks::Ranks;
use ch_word_cells::holds_on_row;
use std::alloc::Global;

/// What is kept of the rows of a query with groups: the best value of each key of those that hold.
#[derive(Drop)]
pub struct GroupFold {
    alloc: Global,
    /// Whether the greatest value is best.
    max: bool,
    /// Where the words of the key stand in a row, and where that of the value does.
    key_places: Listed<usize>,
    value_place: usize,
    /// Where printed words stand in a key with its best value behind it.
    printed_places: Listed<usize>,
    bests: Bests,
}

impl GroupFold {
    pub fn new(
        alloc: Global,
        query: &Bound,
        keys: &[Col],
        max: bool,
        value: Col,
    ) -> Result<GroupFold, Memory>
        requires shape { query.now.shape ≡ shape.Group keys.now max value }
        ensures { (texts : List (List ℕ)) → IfOk result (λ fold. StandsForGroup texts query.now fold []) }
    {
        let key_places = key_places(alloc, query, keys)?;
        let printed_places = group_places(alloc, keys, query.printed.as_slice())?;
        Ok(GroupFold {
            alloc,
            max,
            key_places,
            value_place: word_place(query, value),
            printed_places,
            bests: Bests::new(alloc),
        })
    }

    /// The number of different keys of the rows that hold.
    pub fn size(&self) -> usize
        ensures { (texts : List (List ℕ)) (b : Query) (rows : List Row) → (s : StandsForGroup texts b self.now rows)
            → result ≡ length (once (slice_cmp int_cmp) (map (λ r. at_each r s.keys) (held texts b rows))) }
    {
        self.bests.len()
    }

    /// Takes a row in, if it holds.
    pub fn add(
        &mut self,
        query: &Bound,
        ranks: &Ranks,
        side: u8,
        words: &[i64],
    ) -> Result<(), Memory>
        requires names { NamesOnly (IsCarried query.now) query.now }
        requires fits { RowFits ranks.now query.now side words.now }
        requires room { (rows : List Row) × StandsForGroup ranks.now query.now self.old rows × (length rows < 2 ^ 63) }
        ensures ok { (rows : List Row) (r : Row) → StandsForGroup ranks.now query.now self.old rows → r.side ≡ side → r.words ≡ words.now
            → OnOk result (StandsForGroup ranks.now query.now self.new (rows ++ r ∷ [])) }
        ensures err { OnErr result (self.new ≡ self.old) }
    {
        if side != 0 || !holds_on_row(query, ranks, words) {
            return Ok(());
        }
        let key = picked(self.alloc, words, self.key_places.as_slice())?;
        self.bests
            .add(self.max, key, word_at(words, self.value_place))
    }

    /// The lines of the answer.
    pub fn lines(&self, alloc: Global) -> Result<AnswerLines<'_>, Memory>
        ensures { (texts : List (List ℕ)) (b : Query) (rows : List Row) → NamesOnly (IsCarried b) b → StandsForGroup texts b self.now rows
            → IfOk result (λ lines. TellAnswer texts b rows lines) }
    {
        let lines = self.bests.lines(alloc, self.printed_places.as_slice())?;
        Ok(AnswerLines::Made(lines))
    }
}
