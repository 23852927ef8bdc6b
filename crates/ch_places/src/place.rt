ghost use Rattle.std.specs.Prelude.{◌≡◌, ◌≤◌, length};
ghost use Rattle.ch_pred.specs.Sound.{IsCarried, carried_of, place_in};
ghost use Rattle.op_moves.specs.Columns.{place_of};

use ch_pred::{Bound, Col};

/// Where a column stands in a list; past its end if it doesn't.
fn place_in(columns: &[u32], at: u32) -> u32
    requires few { length columns.now ≤ 16 }
    ensures place { result ≡ place_in columns.now at }
    ensures few { result ≤ 16 }
{
    let mut place = 0;
    for column in columns {
        if *column == at {
            return place;
        }
        place += 1;
    }
    place
}

/// The place of a column's word in a row: behind the pass, the side and the bit.
pub fn place_of(bound: &Bound, col: Col) -> u32
    requires carried { IsCarried bound.now col.side col.at }
    requires few { length (carried_of bound.now col.side) ≤ 16 }
    ensures { result ≡ place_of bound.now col }
{
    match bound.carried.as_slice().get(usize::from(col.side)) {
        Some(columns) => place_in(columns.as_slice(), col.at) + 3,
        None => 3,
    }
}
