ghost use Rattle.std.specs.Prelude.{◌≡◌, ◌≤◌, ◌∷◌, [], true, ℤ, List, IfOk, OnOk, OnErr, length, map, take};
ghost use Rattle.std.specs.Ordering.{int_cmp};
ghost use Rattle.std.specs.Cmp.Lexicographic.{slice_cmp};
ghost use Rattle.ch_lists.specs.Ordered.{ordered};
ghost use Rattle.ch_fold_orders.specs.Firsts.{Bounded};

use ch_cells::Memory;
use ch_flat::word_at;
use std::alloc::Global;
use std::collections::BinaryHeap;
use std::marker::Model;

/// The first so many of the rows of words that came, in ascending order: word by word from the first one on.
#[derive(Drop)]
pub(crate) struct Firsts {
    limit: usize,
    /// The last of them on top.
    heap: BinaryHeap<Vec<i64>>,
}

impl Model for Firsts {
    ghost use Rattle.std.specs.Prelude.{◌≤◌, length, map};
    ghost use Rattle.std.specs.BinaryHeap.{IsHeap, heap_items};
    ghost use Rattle.ch_keys.specs.Keys.{items_of};
    ghost use Rattle.ch_fold_orders.specs.Firsts.{Bounded, vector_cmp};

    ghost Value = { Bounded };

    ghost view = { λ f. record { limit = f.limit; rows = map items_of (heap_items f.heap) } };

    ghost invariant = { λ f. IsHeap vector_cmp (heap_items f.heap) × (length (heap_items f.heap) ≤ f.limit) };
}

impl Firsts {
    pub(crate) fn new(alloc: Global, limit: usize) -> Firsts
        ensures { result ≡ record { limit = limit; rows = [] } }
    {
        Firsts {
            limit,
            heap: BinaryHeap::new(alloc),
        }
    }

    pub(crate) fn len(&self) -> usize
        ensures count { result ≡ length self.now.rows }
        ensures few { result ≤ self.now.limit }
    {
        self.heap.len()
    }

    /// Whether no row with this first word can be among the first any more.
    pub(crate) fn is_beyond(&self, first: i64) -> bool
        ensures { result ≡ true → (line : List ℤ) → take self.now.limit (ordered (slice_cmp int_cmp) ((first ∷ line) ∷ self.now.rows)) ≡ ordered (slice_cmp int_cmp) self.now.rows }
    {
        if self.heap.len() < self.limit {
            return false;
        }
        match self.heap.peek() {
            Some(last) => word_at(last.as_slice(), 0) < first,
            None => false,
        }
    }

    /// Takes a row in, if it is among the first. Then the last one leaves, if they were as many as there may be.
    pub(crate) fn offer(&mut self, row: Vec<i64>) -> Result<(), Memory>
        ensures limit { self.new.limit ≡ self.old.limit }
        ensures ok { OnOk result (ordered (slice_cmp int_cmp) self.new.rows ≡ take self.old.limit (ordered (slice_cmp int_cmp) (row.items ∷ self.old.rows))) }
        ensures err { OnErr result (self.new ≡ self.old) }
    {
        if self.heap.len() < self.limit {
            self.heap.push(row)?;
            return Ok(());
        }
        match self.heap.peek() {
            Some(last) => {
                if !row.cmp(last).is_lt() {
                    return Ok(());
                }
            }
            None => return Ok(()),
        }
        match self.heap.pop() {
            Some(_) => {
                // There is room where the last one left.
                self.heap.push(row)?;
                Ok(())
            }
            None => Ok(()),
        }
    }

    /// The rows in ascending order. No word is copied.
    pub(crate) fn sorted(&self, alloc: Global) -> Result<Vec<&[i64]>, Memory>
        ensures { IfOk result (λ rows. map (λ r. r.now) rows.items ≡ ordered (slice_cmp int_cmp) self.now.rows) }
    {
        let mut rows = Vec::new(alloc);
        for row in self.heap.as_slice() {
            rows.push(row.as_slice())?;
        }
        rows.sort_unstable();
        Ok(rows)
    }
}
