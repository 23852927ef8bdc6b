ghost use Rattle.std.specs.Prelude.{◌≡◌, ℕ, ◌<◌, ◌^◌, ◌++◌, ◌∷◌, [], List, IfOk, OnOk, OnErr, length, map};
ghost use Rattle.ch_pred.specs.Sound.{IsCarried};
ghost use Rattle.ch_pred.specs.declared.bound.Bound.{Bound as Query};
ghost use Rattle.ch_pred.specs.declared.bound.Shape.TheVariants as shape;
ghost use Rattle.ch_cover.specs.Rows.{Row};
ghost use Rattle.ch_words.specs.Readings.{NamesOnly};
ghost use Rattle.ch_words.specs.Rows.{answer_over};
ghost use Rattle.ch_flat.specs.Flat.{pick};
ghost use Rattle.ch_fold_lines.specs.AnswerLines.{TellAnswer};
ghost use Rattle.ch_fold_lines.specs.Rows.{RowFits, reading};
ghost use Rattle.ch_fold_orders.specs.Skyline as spec;
ghost use Rattle.ch_fold_orders.specs.Skyline.{StandsForSkyline};

use crate::front::{Axis, Front};
use ch_cells::{Listed, Memory};
use ch_fold_lines::{AnswerLines, printed_places, word_place};
use ch_pred::{Bound, Dim};
use ch_ranks::Ranks;
use ch_word_cells::holds_on_row;
use std::alloc::Global;

/// What is kept of the rows of a skyline: those that hold and that none dominates.
#[derive(Drop)]
pub struct SkylineFold {
    alloc: Global,
    axes: Listed<Axis>,
    /// Where the printed words stand in a row.
    places: Listed<usize>,
    front: Front,
}

/// The words by which rows are compared.
fn all_axes(alloc: Global, query: &Bound, dims: &[Dim]) -> Result<Listed<Axis>, Memory>
    ensures { IfOk result (λ axes. axes ≡ map (spec.axis_of query.now) dims.now) }
{
    let mut axes = Listed::new(alloc);
    for dim in dims {
        axes.push(Axis {
            place: word_place(query, dim.col),
            max: dim.max,
        })?;
    }
    Ok(axes)
}

impl SkylineFold {
    pub fn new(alloc: Global, query: &Bound, dims: &Listed<Dim>) -> Result<SkylineFold, Memory>
        requires shape { query.now.shape ≡ shape.Skyline dims.now }
        ensures { (texts : List (List ℕ)) → IfOk result (λ fold. StandsForSkyline texts query.now fold []) }
    {
        let axes = all_axes(alloc, query, dims.as_slice())?;
        let places = printed_places(alloc, query)?;
        Ok(SkylineFold {
            alloc,
            axes,
            places,
            front: Front::new(alloc),
        })
    }

    /// The number of rows that are kept: those of the answer.
    pub fn size(&self) -> usize
        ensures { (texts : List (List ℕ)) (b : Query) (rows : List Row) → StandsForSkyline texts b self.now rows → result ≡ length (answer_over (reading texts b) b rows) }
    {
        self.front.len()
    }

    /// Takes a row in, if it holds and none dominates it, and lets those go that it dominates.
    pub fn add(
        &mut self,
        query: &Bound,
        ranks: &Ranks,
        side: u8,
        words: &[i64],
    ) -> Result<(), Memory>
        requires names { NamesOnly (IsCarried query.now) query.now }
        requires fits { RowFits ranks.now query.now side words.now }
        requires room { (rows : List Row) × StandsForSkyline ranks.now query.now self.old rows × (length rows < 2 ^ 63) }
        ensures ok { (rows : List Row) (r : Row) → StandsForSkyline ranks.now query.now self.old rows → r.side ≡ side → r.words ≡ words.now
            → OnOk result (StandsForSkyline ranks.now query.now self.new (rows ++ r ∷ [])) }
        ensures err { OnErr result (self.new ≡ self.old) }
    {
        if side != 0 || !holds_on_row(query, ranks, words) {
            return Ok(());
        }
        self.front.add(self.alloc, self.axes.as_slice(), words)
    }

    /// The lines of the answer.
    pub fn lines(&self, alloc: Global) -> Result<AnswerLines<'_>, Memory>
        ensures { (texts : List (List ℕ)) (b : Query) (rows : List Row) → NamesOnly (IsCarried b) b → StandsForSkyline texts b self.now rows
            → IfOk result (λ lines. TellAnswer texts b rows lines) }
    {
        let lines = self.front.lines(alloc, self.places.as_slice())?;
        Ok(AnswerLines::Made(lines))
    }
}
