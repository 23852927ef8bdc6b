ghost use Rattle.std.specs.Prelude.{◌≡◌, [], IfOk, OnOk, OnErr};
ghost use Rattle.ch_flat.specs.Flat.{pick, with_row};
ghost use Rattle.ch_fold_pairs.specs.Places as places;

use ch_cells::{Listed, Memory};
use ch_flat::Rows;
use ch_fold_lines::word_place;
use ch_pred::{Bound, Col};
use std::alloc::Global;
use std::marker::Model;

/// The first so many places.
fn first_places(alloc: Global, count: usize) -> Result<Listed<usize>, Memory>
    ensures { IfOk result (λ list. list ≡ places.firsts count) }
{
    let mut list = Listed::new(alloc);
    for at in 0..count {
        list.push(at)?;
    }
    Ok(list)
}

/// Where the words that are kept of a row of a table stand in it: that of its key, and then as many as it has.
pub(crate) fn keyed_places(
    alloc: Global,
    query: &Bound,
    key: Col,
    count: usize,
) -> Result<Listed<usize>, Memory>
    ensures { IfOk result (λ list. list ≡ places.keyed_places query.now key count) }
{
    let mut list = Listed::new(alloc);
    list.push(word_place(query, key))?;
    for at in 0..count {
        list.push(at)?;
    }
    Ok(list)
}

/// Lines of one width, each added from the first words of a row.
#[derive(Drop)]
pub(crate) struct Lines {
    /// The first places, as many as a line has words.
    places: Listed<usize>,
    rows: Rows,
}

impl Model for Lines {
    ghost use Rattle.std.specs.Prelude.{◌≡◌};
    ghost use Rattle.ch_flat.specs.Flat.{Flat};
    ghost use Rattle.ch_fold_pairs.specs.Places.{firsts};

    ghost Value = { Flat };

    ghost view = { λ l. l.rows };

    ghost invariant = { λ l. l.places ≡ firsts l.rows.width };
}

impl Lines {
    /// No lines yet.
    pub(crate) fn new(alloc: Global, width: usize) -> Result<Lines, Memory>
        ensures { IfOk result (λ lines. lines ≡ record { width = width; rows = [] }) }
    {
        Ok(Lines {
            places: first_places(alloc, width)?,
            rows: Rows::new(alloc, width),
        })
    }

    /// Adds a line. No memory has room for 2^63 of them.
    #[tactic(auto, using(crate::proofs::Firsts::firsts_length))]
    pub(crate) fn push(&mut self, words: &[i64]) -> Result<(), Memory>
        ensures ok { OnOk result (self.new ≡ with_row self.old (pick words.now (places.firsts self.old.width))) }
        ensures err { OnErr result (self.new ≡ self.old) }
    {
        if self.rows.len() > i64::MAX as usize {
            return Err(Memory);
        }
        self.rows.push_picked(words, self.places.as_slice())
    }

    /// The lines alone.
    pub(crate) fn into_rows(self) -> Rows
        ensures { result ≡ self }
    {
        self.rows
    }
}
