ghost use Rattle.std.specs.Prelude.{◌≡◌};
ghost use Rattle.ch_pred.specs.Sound as sound;
ghost use Rattle.ch_words.specs.Packets as packets;

use ch_cells::Kind;
use ch_pred::{Bound, Col, Shape};

/// The carried columns of a side.
pub fn carried_of(query: &Bound, side: u8) -> &[u32]
    ensures { result.now ≡ sound.carried_of query.now side }
{
    match query.carried.as_slice().get(side as usize) {
        Some(cols) => cols.as_slice(),
        None => &[],
    }
}

/// The kinds of the carried columns of a side.
fn kinds_of(query: &Bound, side: u8) -> &[Kind]
    ensures { result.now ≡ sound.kinds_of query.now side }
{
    match query.kinds.as_slice().get(side as usize) {
        Some(kinds) => kinds.as_slice(),
        None => &[],
    }
}

/// Where a column stands among the carried ones; past them if it isn't carried.
pub fn place_in(carried: &[u32], at: u32) -> usize
    ensures { result ≡ sound.place_in carried.now at }
{
    let mut place = 0;
    for col in carried {
        if *col == at {
            return place;
        }
        place += 1;
    }
    place
}

fn kind_of(query: &Bound, col: Col) -> Kind
    ensures { result ≡ sound.kind_of query.now col }
{
    let place = place_in(carried_of(query, col.side), col.at);
    match kinds_of(query, col.side).get(place) {
        Some(kind) => *kind,
        None => Kind::Void,
    }
}

/// The kind by which a key column is read: if it has no rows, that of the column with which it is compared.
fn key_kind(kind: Kind, other: Kind) -> Kind
    ensures { result ≡ packets.key_kind kind other }
{
    match kind {
        Kind::Number => Kind::Number,
        Kind::Text => Kind::Text,
        Kind::Void => other,
    }
}

fn key_read(query: &Bound, key: Col, other: Col, col: Col) -> Kind
    ensures { result ≡ packets.keys_read query.now key other col.side col.at }
{
    if key.side == col.side && key.at == col.at {
        key_kind(kind_of(query, key), kind_of(query, other))
    } else if other.side == col.side && other.at == col.at {
        key_kind(kind_of(query, other), kind_of(query, key))
    } else {
        kind_of(query, col)
    }
}

/// The kind by which the words of a column are read.
pub fn kind_read(query: &Bound, col: Col) -> Kind
    ensures { result ≡ packets.kinds_read query.now query.now.shape col.side col.at }
{
    match &query.shape {
        Shape::Join { left, right } => key_read(query, *left, *right, col),
        Shape::Semi { key, inner } => key_read(query, *key, *inner, col),
        Shape::Filter | Shape::Distinct => kind_of(query, col),
        Shape::Top {
            by: _,
            descending: _,
            limit: _,
        } => kind_of(query, col),
        Shape::Group {
            keys: _,
            max: _,
            value: _,
        } => kind_of(query, col),
        Shape::Having {
            keys: _,
            sum: _,
            above: _,
        } => kind_of(query, col),
        Shape::Skyline { dims: _ } => kind_of(query, col),
    }
}
