ghost use Rattle.std.specs.Prelude.{◌≡◌, ℕ, Bool, ◌<◌, ◌^◌, ◌++◌, ◌∷◌, [], List, IfOk, OnOk, OnErr, length, map, min, drop};
ghost use Rattle.ch_pred.specs.Sound.{IsCarried};
ghost use Rattle.ch_pred.specs.declared.bound.Bound.{Bound as Query};
ghost use Rattle.ch_pred.specs.declared.bound.Shape.TheVariants as shape;
ghost use Rattle.ch_pred.specs.declared.pred.Col.{Col as Column};
ghost use Rattle.ch_cover.specs.Rows.{Row};
ghost use Rattle.ch_words.specs.Readings.{NamesOnly};
ghost use Rattle.ch_flat.specs.Flat.{pick};
ghost use Rattle.ch_fold_lines.specs.AnswerLines.{TellAnswer};
ghost use Rattle.ch_fold_lines.specs.Rows.{RowFits, held};
ghost use Rattle.ch_fold_orders.specs.Top as spec;
ghost use Rattle.ch_fold_orders.specs.Top.{StandsForTop};

use crate::firsts::Firsts;
use ch_cells::{Listed, Memory};
use ch_flat::word_at;
use ch_fold_lines::{AnswerLines, printed_places, word_place};
use ch_pred::{Bound, Col};
use ch_ranks::Ranks;
use ch_word_cells::holds_on_row;
use std::alloc::Global;

/// What is kept of the rows of a TOP: the first of those that hold.
#[derive(Drop)]
pub struct TopFold {
    alloc: Global,
    /// Where the word stands in a row that the order goes by.
    by: usize,
    descending: bool,
    /// Where the printed words stand in a row.
    places: Listed<usize>,
    firsts: Firsts,
}

fn turned(descending: bool, word: i64) -> i64
    ensures { result ≡ spec.turned descending word }
{
    if descending { -1 - word } else { word }
}

/// A row of this word and then the words at some places.
fn row_after(alloc: Global, first: i64, words: &[i64], places: &[usize]) -> Result<Vec<i64>, Memory>
    ensures { IfOk result (λ row. row.items ≡ first ∷ pick words.now places.now) }
{
    let mut row = Vec::new(alloc);
    row.push(first)?;
    for place in places {
        row.push(word_at(words, *place))?;
    }
    Ok(row)
}

/// The rows without their first words.
fn tails<'a>(alloc: Global, rows: &[&'a [i64]]) -> Result<Vec<&'a [i64]>, Memory>
    ensures { IfOk result (λ tails. map (λ r. r.now) tails.items ≡ map (drop 1) (map (λ r. r.now) rows.now)) }
{
    let mut tails = Vec::new(alloc);
    for row in rows {
        let row: &'a [i64] = row;
        tails.push(match row.get(1..) {
            Some(tail) => tail,
            None => &[],
        })?;
    }
    Ok(tails)
}

impl TopFold {
    pub fn new(
        alloc: Global,
        query: &Bound,
        by: Col,
        descending: bool,
        limit: u32,
    ) -> Result<TopFold, Memory>
        requires shape { query.now.shape ≡ shape.Top by descending limit }
        ensures { (texts : List (List ℕ)) → IfOk result (λ fold. StandsForTop texts query.now fold []) }
    {
        let places = printed_places(alloc, query)?;
        Ok(TopFold {
            alloc,
            by: word_place(query, by),
            descending,
            places,
            firsts: Firsts::new(alloc, limit as usize),
        })
    }

    /// The number of rows that are kept: of those that hold, at most as many as the query asks for.
    pub fn size(&self) -> usize
        ensures { (texts : List (List ℕ)) (b : Query) (rows : List Row) → StandsForTop texts b self.now rows
            → (by : Column) (descending : Bool) (limit : ℕ) → b.shape ≡ shape.Top by descending limit → result ≡ min limit (length (held texts b rows)) }
    {
        self.firsts.len()
    }

    /// Takes a row in, if it holds and is among the first.
    pub fn add(
        &mut self,
        query: &Bound,
        ranks: &Ranks,
        side: u8,
        words: &[i64],
    ) -> Result<(), Memory>
        requires names { NamesOnly (IsCarried query.now) query.now }
        requires fits { RowFits ranks.now query.now side words.now }
        requires room { (rows : List Row) × StandsForTop ranks.now query.now self.old rows × (length rows < 2 ^ 63) }
        ensures ok { (rows : List Row) (r : Row) → StandsForTop ranks.now query.now self.old rows → r.side ≡ side → r.words ≡ words.now
            → OnOk result (StandsForTop ranks.now query.now self.new (rows ++ r ∷ [])) }
        ensures err { OnErr result (self.new ≡ self.old) }
    {
        if side != 0 || !holds_on_row(query, ranks, words) {
            return Ok(());
        }
        let first = turned(self.descending, word_at(words, self.by));
        if self.firsts.is_beyond(first) {
            return Ok(());
        }
        let row = row_after(self.alloc, first, words, self.places.as_slice())?;
        self.firsts.offer(row)
    }

    /// The lines of the answer.
    pub fn lines(&self, alloc: Global) -> Result<AnswerLines<'_>, Memory>
        ensures { (texts : List (List ℕ)) (b : Query) (rows : List Row) → NamesOnly (IsCarried b) b → StandsForTop texts b self.now rows
            → IfOk result (λ lines. TellAnswer texts b rows lines) }
    {
        let rows = self.firsts.sorted(alloc)?;
        let lines = tails(alloc, rows.as_slice())?;
        Ok(AnswerLines::InOrder(lines))
    }
}
