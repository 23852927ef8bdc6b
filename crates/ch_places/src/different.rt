ghost use Rattle.std.specs.Prelude.{◌≡◌, ◌≤◌, ℕ, length, map, IfOk};
ghost use Rattle.std.specs.List.{insert, list_any};
ghost use Rattle.ch_lists.specs.Members.{Each};
ghost use Rattle.ch_pred.specs.Named.{printed_cols};
ghost use Rattle.ch_pred.specs.Sound.{IsCarried, carried_of};
ghost use Rattle.op_moves.specs.Columns.{place_of};
ghost use Rattle.ch_places.specs.Different.{different, inserted, is_same_col};

use crate::place::place_of;
use ch_cells::{Listed, Memory};
use ch_pred::{Bound, Col, Printed};
use std::alloc::Global;

fn is_same_col(a: Col, b: Col) -> bool
    ensures { result ≡ is_same_col a b }
{
    a.side == b.side && a.at == b.at
}

fn stands_in(col: Col, cols: &[Col]) -> bool
    ensures { result ≡ list_any (is_same_col col) cols.now }
{
    for other in cols {
        if is_same_col(col, *other) {
            return true;
        }
    }
    false
}

fn is_printed(col: Col, items: &[Printed]) -> bool
    ensures { result ≡ list_any (is_same_col col) (printed_cols items.now) }
{
    for item in items {
        match *item {
            Printed::Column(other) => {
                if is_same_col(col, other) {
                    return true;
                }
            }
            Printed::Best => {}
        }
    }
    false
}

/// How many different columns there are.
pub fn count_different(cols: &[Col]) -> usize
    ensures { result ≡ length (different cols.now) }
{
    let mut count = 0;
    for at in 0..cols.len() {
        if !stands_in(cols[at], &cols[at + 1..]) {
            count += 1;
        }
    }
    count
}

/// How many different columns are printed.
pub fn count_printed(items: &[Printed]) -> usize
    ensures { result ≡ length (different (printed_cols items.now)) }
{
    let mut count = 0;
    for at in 0..items.len() {
        match items[at] {
            Printed::Column(col) => {
                if !is_printed(col, &items[at + 1..]) {
                    count += 1;
                }
            }
            Printed::Best => {}
        }
    }
    count
}

/// The columns that are printed.
pub fn printed_cols(alloc: Global, items: &[Printed]) -> Result<Listed<Col>, Memory>
    ensures { IfOk result (λ cols. cols ≡ printed_cols items.now) }
{
    let mut cols = Listed::new(alloc);
    for item in items {
        match *item {
            Printed::Column(col) => cols.push(col)?,
            Printed::Best => {}
        }
    }
    Ok(cols)
}

/// How many columns at the head of an ascending list stand before another.
fn count_before(col: Col, ascending: &[Col]) -> usize
    ensures within { result ≤ length ascending.now }
    ensures insert { insert ascending.now result col ≡ inserted col ascending.now }
{
    let mut count = 0;
    for other in ascending {
        if col.at < other.at {
            return count;
        }
        count += 1;
    }
    count
}

/// The different columns, ascending by their places in the header.
fn different(alloc: Global, cols: &[Col]) -> Result<Vec<Col>, Memory>
    ensures { IfOk result (λ ascending. ascending.items ≡ different cols.now) }
{
    let mut ascending = Vec::new(alloc);
    for at in (0..cols.len()).rev() {
        let col = cols[at];
        if !stands_in(col, &cols[at + 1..]) {
            ascending.insert(count_before(col, &ascending), col)?;
        }
    }
    Ok(ascending)
}

/// The places of the different columns, ascending as they do in the header.
pub fn different_places(alloc: Global, bound: &Bound, cols: &[Col]) -> Result<Listed<u32>, Memory>
    requires carried { Each (λ c. IsCarried bound.now c.side c.at) cols.now }
    requires few { (side : ℕ) → length (carried_of bound.now side) ≤ 16 }
    ensures { IfOk result (λ places. places ≡ map (place_of bound.now) (different cols.now)) }
{
    let mut places = Listed::new(alloc);
    for col in &different(alloc, cols)? {
        places.push(place_of(bound, *col))?;
    }
    Ok(places)
}
