ghost use Rattle.std.specs.Prelude.{◌≡◌, ◌<◌, ◌^◌, ◌++◌, ◌∷◌, [], ℤ, List, IfOk, OnOk, OnErr, length, slice_index_or};
ghost use Rattle.std.specs.Ordering.{int_cmp};
ghost use Rattle.std.specs.Cmp.Lexicographic.{slice_cmp};
ghost use Rattle.ch_lists.specs.Ordered.{ordered};
ghost use Rattle.ch_flat.specs.Flat.{Flat, pick, with_row};

use crate::words::{add_picked, all_starts, places_of, row_from, sort_heads, with_heads};
use ch_cells::Memory;
use std::alloc::Global;
use std::marker::Model;

/// Rows of one width, in the order in which they came.
#[derive(Drop)]
pub struct Rows {
    /// The rows end to end.
    words: Vec<i64>,
    width: usize,
    count: usize,
}

impl Model for Rows {
    ghost use Rattle.std.specs.Prelude.{◌≡◌, length};
    ghost use Rattle.ch_flat.specs.Flat.{Flat, rows_in, end_of};

    ghost Value = { Flat };

    ghost view = { λ r. record { width = r.width; rows = rows_in r.width r.words.items r.count } };

    ghost invariant = { λ r. length r.words.items ≡ end_of r.width r.count 0 };
}

impl Rows {
    /// No rows yet.
    pub fn new(alloc: Global, width: usize) -> Rows
        ensures { result ≡ record { width = width; rows = [] } }
    {
        Rows {
            words: Vec::new(alloc),
            width,
            count: 0,
        }
    }

    /// How many words each row has.
    pub fn width(&self) -> usize
        ensures { result ≡ self.now.width }
    {
        self.width
    }

    /// How many rows there are.
    #[tactic(auto, using(crate::proofs::Places::rows_in_length))]
    pub fn len(&self) -> usize
        ensures { result ≡ length self.now.rows }
    {
        self.count
    }

    /// Adds the row of the words at some places, with 0 for a place past the end.
    #[tactic(auto, using(crate::proofs::Places::rows_in_length))]
    pub fn push_picked(&mut self, words: &[i64], places: &[usize]) -> Result<(), Memory>
        requires width { length places.now ≡ self.old.width }
        requires room { length self.old.rows < 2 ^ 63 }
        ensures ok { OnOk result (self.new ≡ with_row self.old (pick words.now places.now)) }
        ensures err { OnErr result (self.new ≡ self.old) }
    {
        add_picked(&mut self.words, words, places)?;
        self.count += 1;
        Ok(())
    }

    /// The rows in ascending order: word by word from the first one on. No word is copied.
    #[tactic(auto, using(crate::proofs::Heads::heads_rows, crate::proofs::Heads::places_rows))]
    pub fn sorted(&self, alloc: Global) -> Result<Sorted<'_>, Memory>
        ensures { IfOk result (λ rows. rows ≡ ordered (slice_cmp int_cmp) self.now.rows) }
    {
        let words = self.words.as_slice();
        let width = self.width;
        let starts = all_starts(alloc, width, self.count)?;
        let mut heads = with_heads(alloc, words, width, starts.as_slice())?;
        drop(starts);
        sort_heads(words, width, &mut heads);
        let places = places_of(alloc, heads.as_slice())?;
        Ok(Sorted {
            words,
            width,
            places,
        })
    }
}

/// Rows in ascending order, of words that are lent.
#[derive(Drop)]
pub struct Sorted<'a> {
    words: &'a [i64],
    width: usize,
    /// The places where the rows begin.
    places: Vec<usize>,
}

impl<'a> Model for Sorted<'a> {
    ghost use Rattle.std.specs.Prelude.{List, ℤ, map};
    ghost use Rattle.ch_flat.specs.Flat.{row_from};

    ghost Value = { List (List ℤ) };

    ghost view = { λ s. map (row_from s.width s.words.now) s.places.items };
}

impl<'a> Sorted<'a> {
    /// How many rows there are.
    pub fn len(&self) -> usize
        ensures { result ≡ length self.now }
    {
        self.places.len()
    }

    /// The row at a place of the order.
    pub fn row(&self, at: usize) -> &[i64]
        requires { at < length self.now }
        ensures { result.now ≡ slice_index_or self.now at [] }
    {
        row_from(self.words, self.width, self.places[at])
    }
}
