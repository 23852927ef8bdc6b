ghost use Rattle.std.specs.Prelude.{◌≡◌, [], length, map, IfOk, OnOk, OnErr};
ghost use Rattle.std.specs.List.{list_any, list_all};
ghost use Rattle.std.specs.Ordering.{is_le, is_lt};
ghost use Rattle.ch_flat.specs.Flat.{pick};
ghost use Rattle.ch_fold_orders.specs.Front as spec;

use ch_cells::Memory;
use ch_flat::{Rows, word_at};
use std::alloc::Global;
use std::cmp::Ordering;
use std::marker::Model;

/// A word by which rows are compared: its place, and whether the greatest is best.
#[derive(Clone, Copy)]
pub struct Axis {
    pub place: usize,
    pub max: bool,
}

/// Rows of words of which none dominates another one.
#[derive(Drop)]
pub(crate) struct Front {
    rows: Vec<Vec<i64>>,
}

impl Model for Front {
    ghost use Rattle.std.specs.Prelude.{List, ℤ, map};
    ghost use Rattle.ch_keys.specs.Keys.{items_of};

    ghost Value = { List (List ℤ) };

    ghost view = { λ f. map items_of f.rows.items };
}

fn axis_cmp(a: &[i64], b: &[i64], axis: Axis) -> Ordering
    ensures { result ≡ spec.axis_cmp a.now b.now axis }
{
    let x = word_at(a, axis.place);
    let y = word_at(b, axis.place);
    if axis.max { y.cmp(&x) } else { x.cmp(&y) }
}

/// Whether a row is as good as another one by each of the words.
fn is_as_good(axes: &[Axis], a: &[i64], b: &[i64]) -> bool
    ensures { result ≡ list_all (λ x. is_le (spec.axis_cmp a.now b.now x)) axes.now }
{
    for axis in axes {
        if axis_cmp(a, b, *axis).is_gt() {
            return false;
        }
    }
    true
}

/// Whether a row is better than another one by one of the words.
fn is_better(axes: &[Axis], a: &[i64], b: &[i64]) -> bool
    ensures { result ≡ list_any (λ x. is_lt (spec.axis_cmp a.now b.now x)) axes.now }
{
    for axis in axes {
        if axis_cmp(a, b, *axis).is_lt() {
            return true;
        }
    }
    false
}

fn is_over(axes: &[Axis], a: &[i64], b: &[i64]) -> bool
    ensures { result ≡ spec.is_over axes.now a.now b.now }
{
    is_as_good(axes, a, b) && is_better(axes, a, b)
}

impl Front {
    pub(crate) fn new(alloc: Global) -> Front
        ensures { result ≡ [] }
    {
        Front {
            rows: Vec::new(alloc),
        }
    }

    pub(crate) fn len(&self) -> usize
        ensures { result ≡ length self.now }
    {
        self.rows.len()
    }

    /// The words of each row at some places.
    pub(crate) fn lines(&self, alloc: Global, places: &[usize]) -> Result<Rows, Memory>
        ensures { IfOk result (λ lines. lines ≡ record { width = length places.now; rows = map (λ ws. pick ws places.now) self.now }) }
    {
        let mut lines = Rows::new(alloc, places.len());
        for row in &self.rows {
            lines.push_picked(row.as_slice(), places)?;
        }
        Ok(lines)
    }

    /// Whether one of the rows dominates this one.
    fn beats(&self, axes: &[Axis], words: &[i64]) -> bool
        ensures { result ≡ list_any (λ s. spec.is_over axes.now s words.now) self.now }
    {
        for row in &self.rows {
            if is_over(axes, row.as_slice(), words) {
                return true;
            }
        }
        false
    }

    /// Takes a row in, if none dominates it, and lets those go that it dominates.
    pub(crate) fn add(&mut self, alloc: Global, axes: &[Axis], words: &[i64]) -> Result<(), Memory>
        ensures ok { OnOk result (self.new ≡ spec.with_point (spec.is_over axes.now) self.old words.now) }
        ensures err { OnErr result (self.new ≡ self.old) }
    {
        if self.beats(axes, words) {
            return Ok(());
        }
        let row = Vec::from_slice(alloc, words)?;
        self.rows.reserve(1)?;
        self.rows
            .retain(|other| !is_over(axes, words, other.as_slice()));
        self.rows.push_reserved(row);
        Ok(())
    }
}
