ghost use Rattle.std.specs.Prelude.{◌≡◌, IfOk, map};
ghost use Rattle.ch_fold_groups.specs.Lines as lines;

use ch_cells::{Listed, Memory};
use ch_fold_lines::word_place;
use ch_pred::{Bound, Col, Printed};
use std::alloc::Global;

/// Where the words of a key stand in a row.
pub(crate) fn key_places(
    alloc: Global,
    query: &Bound,
    keys: &[Col],
) -> Result<Listed<usize>, Memory>
    ensures { IfOk result (λ places. places ≡ map (lines.place_of query.now) keys.now) }
{
    let mut places = Listed::new(alloc);
    for col in keys {
        places.push(word_place(query, *col))?;
    }
    Ok(places)
}

fn key_place(keys: &[Col], col: Col) -> usize
    ensures { result ≡ lines.key_place keys.now col }
{
    let mut place = 0;
    for key in keys {
        if key.side == col.side && key.at == col.at {
            return place;
        }
        place += 1;
    }
    place + 1
}

fn group_place(keys: &[Col], item: &Printed) -> usize
    ensures { result ≡ lines.group_place keys.now item.now }
{
    match item {
        Printed::Column(col) => key_place(keys, *col),
        Printed::Best => keys.len(),
    }
}

/// Where printed words stand in a key with its value behind it.
pub(crate) fn group_places(
    alloc: Global,
    keys: &[Col],
    printed: &[Printed],
) -> Result<Listed<usize>, Memory>
    ensures { IfOk result (λ places. places ≡ map (lines.group_place keys.now) printed.now) }
{
    let mut places = Listed::new(alloc);
    for item in printed {
        places.push(group_place(keys, item))?;
    }
    Ok(places)
}
