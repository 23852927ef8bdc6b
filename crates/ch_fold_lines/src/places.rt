ghost use Rattle.std.specs.Prelude.{◌≡◌, IfOk, map};
ghost use Rattle.ch_pred.specs.Sound as sound;
ghost use Rattle.ch_fold_lines.specs.Rows as rows;
ghost use Rattle.ch_fold_lines.specs.Shown as shown;

use ch_cells::{Kind, Listed, Memory};
use ch_pred::{Bound, Col, Printed, Shape};
use ch_word_cells::{carried_of, kind_read, place_in};
use std::alloc::Global;

/// Where the word of a column stands in a row of its side.
pub fn word_place(query: &Bound, col: Col) -> usize
    ensures { result ≡ sound.place_in (sound.carried_of query.now col.side) col.at }
{
    place_in(carried_of(query, col.side), col.at)
}

fn printed_place(query: &Bound, item: &Printed) -> usize
    ensures { result ≡ rows.printed_place query.now item.now }
{
    match item {
        Printed::Column(col) => word_place(query, *col),
        Printed::Best => carried_of(query, 0).len(),
    }
}

/// Where the printed words stand in a row of the first table.
pub fn printed_places(alloc: Global, query: &Bound) -> Result<Listed<usize>, Memory>
    ensures { IfOk result (λ places. places ≡ map (rows.printed_place query.now) query.now.printed) }
{
    let mut places = Listed::new(alloc);
    for item in query.printed.as_slice() {
        places.push(printed_place(query, item))?;
    }
    Ok(places)
}

fn best_kind(query: &Bound) -> Kind
    ensures { result ≡ shown.best_kind query.now query.now.shape }
{
    match &query.shape {
        Shape::Group {
            keys: _,
            max: _,
            value,
        } => kind_read(query, *value),
        Shape::Filter | Shape::Distinct => Kind::Number,
        Shape::Top {
            by: _,
            descending: _,
            limit: _,
        } => Kind::Number,
        Shape::Having {
            keys: _,
            sum: _,
            above: _,
        } => Kind::Number,
        Shape::Join { left: _, right: _ } => Kind::Number,
        Shape::Skyline { dims: _ } => Kind::Number,
        Shape::Semi { key: _, inner: _ } => Kind::Number,
    }
}

fn printed_kind(query: &Bound, item: &Printed) -> Kind
    ensures { result ≡ shown.printed_kind query.now item.now }
{
    match item {
        Printed::Column(col) => kind_read(query, *col),
        Printed::Best => best_kind(query),
    }
}

/// The kinds by which printed words are read.
pub fn printed_kinds(alloc: Global, query: &Bound) -> Result<Listed<Kind>, Memory>
    ensures { IfOk result (λ kinds. kinds ≡ shown.printed_kinds query.now) }
{
    let mut kinds = Listed::new(alloc);
    for item in query.printed.as_slice() {
        kinds.push(printed_kind(query, item))?;
    }
    Ok(kinds)
}
