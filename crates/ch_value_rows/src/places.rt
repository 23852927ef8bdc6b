//! The different columns of a query, and their places.
ghost use Rattle.std.specs.Prelude.{◌≡◌, [], ◌∷◌, IfOk};

use crate::lists::{one, two};
use crate::predicates::{NUMBER, TEXT};
use ch_cells::{Kind, Listed, Memory};
use ch_places::{count_different, count_printed, different_places, printed_cols};
use ch_pred::{Bound, BoundPred, Printed, Shape};
use std::alloc::Global;

pub(crate) fn repeats(alloc: Global) -> anyhow::Result<String> {
    let columns = count_different(&[NUMBER, TEXT, NUMBER]);
    let items = [
        Printed::Column(NUMBER),
        Printed::Best,
        Printed::Column(NUMBER),
    ];
    let printed = count_printed(&items);
    let cols = printed_cols(alloc, &items)?;
    let all = cols.len();
    Ok(format!(in alloc; "{columns} different, {printed} printed of {all}\n")?)
}

/// A query that carries the first two columns of its table.
fn query(alloc: Global) -> Result<Bound, Memory>
    ensures { IfOk result (λ b. b.carried ≡ (0 ∷ 1 ∷ []) ∷ []) }
{
    let carried = one(alloc, two(alloc, 0, 1)?)?;
    let kinds = one(alloc, two(alloc, Kind::Number, Kind::Number)?)?;
    Ok(Bound {
        tables: Listed::new(alloc),
        carried,
        kinds,
        header: Listed::new(alloc),
        printed: Listed::new(alloc),
        filter: BoundPred::Truth,
        shape: Shape::Distinct,
    })
}

fn carried_places(alloc: Global) -> Result<Listed<u32>, Memory> {
    let query = query(alloc)?;
    let places = different_places(alloc, &query, &[TEXT, NUMBER, TEXT]);
    drop(query);
    places
}

pub(crate) fn places(alloc: Global) -> anyhow::Result<String> {
    let places = carried_places(alloc)?;
    Ok(format!(in alloc; "{:?}\n", places.as_slice())?)
}
