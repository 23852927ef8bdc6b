ghost use Rattle.std.specs.Prelude.{◌≡◌, ◌≤◌, ◌<◌, ◌+◌, map, IfOk};
ghost use Rattle.ch_lists.specs.Members.{Each};
ghost use Rattle.ch_pred.specs.Sound.{IsCarried};
ghost use Rattle.op_moves.specs.Columns.{place_of};
ghost use Rattle.ch_plan.specs.Needs.{greatest_length};

use crate::needs::greatest_length;
use ch_cells::{Listed, Memory};
use ch_places::place_of;
use ch_pred::{Bound, Dim};
use std::alloc::Global;

/// How many words a row of the query is given by.
pub(crate) fn width_of(bound: &Bound) -> u32
    requires { greatest_length bound.now.carried ≤ 16 }
    ensures { result ≡ greatest_length bound.now.carried + 3 }
{
    greatest_length(bound.carried.as_slice()) as u32 + 3
}

/// The words of a row at which the columns of dimensions stand.
pub(crate) fn places_of(alloc: Global, bound: &Bound, dims: &[Dim]) -> Result<Listed<u32>, Memory>
    requires carried { Each (λ k. IsCarried bound.now k.col.side k.col.at) dims.now }
    requires few { greatest_length bound.now.carried ≤ 16 }
    ensures { IfOk result (λ places. places ≡ map (λ k. place_of bound.now k.col) dims.now) }
{
    let mut places = Listed::new(alloc);
    for dim in dims {
        places.push(place_of(bound, dim.col))?;
    }
    Ok(places)
}

/// Of each dimension whether the greatest value is best.
pub(crate) fn directions_of(alloc: Global, dims: &[Dim]) -> Result<Listed<bool>, Memory>
    ensures { IfOk result (λ max. max ≡ map (λ k. k.max) dims.now) }
{
    let mut max = Listed::new(alloc);
    for dim in dims {
        max.push(dim.max)?;
    }
    Ok(max)
}
