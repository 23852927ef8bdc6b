ghost use Rattle.std.specs.Prelude.{◌≡◌, ◌≤◌, ◌<◌, ◌+◌, ◌*◌, ◌^◌};
ghost use Rattle.ch_plan.specs.Kinds.{IsPlannable};
ghost use Rattle.ch_plan.specs.Ranged.{IsRanged};
ghost use Rattle.ch_plan.specs.Needs.{exceeds, greatest_length, need_of, plan_refusal};

use crate::error::PlanError;
use ch_cells::Listed;
use ch_ir::{LimitName, Profile};
use ch_places::{count_different, count_printed};
use ch_pred::{Bound, Shape};
use ch_prune::Need;

pub(crate) fn greatest_length(lists: &[Listed<u32>]) -> usize
    ensures { result ≡ greatest_length lists.now }
{
    let mut greatest = 0;
    for columns in lists {
        greatest = greatest.max(columns.len());
    }
    greatest
}

/// The need of an operator of so many stages, whose greatest array has so many cells.
fn need_with(carried: u64, cells: u64, keys: u64, stages: u64) -> Need
    requires carried { carried < 2 ^ 32 }
    requires keys { keys ≤ 16 }
    requires stages { stages < 2 ^ 33 }
    ensures { result ≡ record { width = carried + 3; cells = cells; words = carried + 3 + 32 + stages * (keys + 32); stages = 2 + stages } }
{
    Need {
        width: carried + 3,
        cells,
        words: carried + 3 + 32 + stages * (keys + 32),
        stages: 2 + stages,
    }
}

/// What the plan of a query needs of each limit.
pub(crate) fn need_of(bound: &Bound, profile: &Profile) -> Need
    requires kind { IsPlannable bound.now bound.now.shape }
    requires few { greatest_length bound.now.carried ≤ 16 }
    requires ranged { IsRanged profile.now }
    ensures { result ≡ need_of bound.now profile.now }
{
    let carried = greatest_length(bound.carried.as_slice()) as u64;
    match &bound.shape {
        Shape::Filter => need_with(carried, 0, 1, 0),
        Shape::Distinct => {
            let keys = count_printed(bound.printed.as_slice()) as u64;
            let cells = u64::from(profile.distinct_rows) * (keys + 1);
            need_with(carried, cells, keys, u64::from(profile.distinct_cols))
        }
        Shape::Group {
            keys,
            max: _,
            value: _,
        } => {
            let keys = count_different(keys.as_slice()) as u64;
            let cells = u64::from(profile.group_rows) * (keys + 2);
            need_with(carried, cells, keys, u64::from(profile.group_cols))
        }
        Shape::Top {
            by: _,
            descending: _,
            limit: _,
        } => need_with(carried, 1, 1, u64::from(profile.top_steps) + 2),
        Shape::Skyline { dims } => {
            let dimensions = dims.len() as u64;
            let points = u64::from(profile.skyline_points);
            need_with(carried, dimensions + 2, dimensions, points)
        }
        Shape::Having {
            keys,
            sum: _,
            above: _,
        } => {
            let keys = count_different(keys.as_slice()) as u64;
            let cells = u64::from(profile.sketch_cells);
            need_with(carried, cells, keys, u64::from(profile.sketch_hashes))
        }
        Shape::Join { left: _, right: _ } => {
            let cells = 2 * u64::from(profile.bloom_cells);
            need_with(carried, cells, 1, u64::from(profile.bloom_hashes))
        }
        Shape::Semi { key: _, inner: _ } => {
            let filters = 2 * u64::from(profile.bloom_cells);
            let lists = 2 * u64::from(profile.distinct_rows);
            let stages = u64::from(profile.bloom_hashes) + u64::from(profile.distinct_cols);
            need_with(carried, filters.max(lists), 1, stages)
        }
    }
}

fn exceeds(which: LimitName, need: u64, have: u32) -> Option<PlanError>
    ensures { result ≡ exceeds which need have }
{
    let have = u64::from(have);
    if have < need {
        Some(PlanError::Limit { which, need, have })
    } else {
        None
    }
}

/// The first limit that the need exceeds.
pub(crate) fn plan_refusal(need: Need, profile: &Profile) -> Option<PlanError>
    ensures { result ≡ plan_refusal need profile.now }
{
    exceeds(LimitName::Width, need.width, profile.width)
        .or(exceeds(LimitName::Cells, need.cells, profile.cells))
        .or(exceeds(LimitName::Words, need.words, profile.words))
        .or(exceeds(LimitName::Stages, need.stages, profile.stages))
}
