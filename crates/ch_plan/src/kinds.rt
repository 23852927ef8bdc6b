ghost use Rattle.std.specs.Prelude.{◌≡◌, ◌≤◌, None, IfOk, length, true};
ghost use Rattle.ch_prune.specs.Sent.{is_cell_word};
ghost use Rattle.ch_lists.specs.Members.{Each};
ghost use Rattle.ch_pred.specs.Sound.{IsCarried};
ghost use Rattle.ch_pred.specs.declared.bound.Shape.TheVariants as shape;
ghost use Rattle.ch_plan.specs.Needs.{greatest_length, need_of, plan_refusal};
ghost use Rattle.ch_plan.specs.Ranged.{IsRanged};
ghost use Rattle.ch_pred.specs.Named.{printed_cols};
ghost use Rattle.ch_plan.specs.Kinds.{AreKeys, IsPlanOf, IsPlannable, IsSumCarried};
ghost use Rattle.ch_plan.specs.Policy.{sum_by};

use crate::kind::PlanKind;
use crate::places::{directions_of, places_of, width_of};
use crate::planned::{Planned, checked_program};
use ch_cells::Memory;
use ch_ir::Profile;
use ch_places::{different_places, place_of, printed_cols};
use ch_pred::{Bound, Col, Dim, Shape};
use ch_prune::{Filter, Front, Operator};
use op_distinct::Distinct;
use op_group::Group;
use op_having::HavingOp;
use op_join::JoinOp;
use op_semi::Semi;
use op_skyline::Skyline;
use op_topn::TopN;
use std::alloc::Global;

fn plan_filter(alloc: Global, bound: &Bound, profile: &Profile) -> Result<Planned, Memory>
    requires kind { bound.now.shape ≡ shape.Filter }
    requires few { greatest_length bound.now.carried ≤ 16 }
    requires within { plan_refusal (need_of bound.now profile.now) profile.now ≡ None }
    requires ranged { IsRanged profile.now }
    ensures { IfOk result (λ p. IsPlanOf p.kind bound.now profile.now) }
{
    let filter = Filter::new(Front::bit(), profile.ops, width_of(bound));
    let passes = filter.passes();
    let checked = checked_program(alloc, &filter, profile)?;
    let kind = PlanKind::Filter(filter);
    Ok(Planned {
        kind,
        checked,
        passes,
    })
}

fn plan_top(
    alloc: Global,
    bound: &Bound,
    profile: &Profile,
    by: Col,
    descending: bool,
    limit: u32,
) -> Result<Planned, Memory>
    requires kind { bound.now.shape ≡ shape.Top by descending limit }
    requires carried { IsCarried bound.now by.side by.at }
    requires some { 1 ≤ limit }
    requires few { greatest_length bound.now.carried ≤ 16 }
    requires within { plan_refusal (need_of bound.now profile.now) profile.now ≡ None }
    requires ranged { IsRanged profile.now }
    ensures { IfOk result (λ p. IsPlanOf p.kind bound.now profile.now) }
{
    let (width, value) = (width_of(bound), place_of(bound, by));
    let (ops, steps, gap) = (profile.ops, profile.top_steps, profile.top_gap);
    let front = Front::bit();
    let top = TopN::new(front, ops, width, steps, gap, value, descending, limit);
    let passes = top.passes();
    let checked = checked_program(alloc, &top, profile)?;
    let kind = PlanKind::Top(top);
    Ok(Planned {
        kind,
        checked,
        passes,
    })
}

fn plan_skyline(
    alloc: Global,
    bound: &Bound,
    profile: &Profile,
    dims: &[Dim],
) -> Result<Planned, Memory>
    requires kind { bound.now.shape ≡ shape.Skyline dims.now }
    requires carried { Each (λ k. IsCarried bound.now k.col.side k.col.at) dims.now }
    requires some { 1 ≤ length dims.now }
    requires most { length dims.now ≤ 4 }
    requires few { greatest_length bound.now.carried ≤ 16 }
    requires within { plan_refusal (need_of bound.now profile.now) profile.now ≡ None }
    requires ranged { IsRanged profile.now }
    ensures { IfOk result (λ p. IsPlanOf p.kind bound.now profile.now) }
{
    let places = places_of(alloc, bound, dims)?;
    let max = directions_of(alloc, dims)?;
    let (ops, width) = (profile.ops, width_of(bound));
    let points = profile.skyline_points;
    let skyline = Skyline::new(Front::bit(), ops, width, points, places, max);
    let passes = skyline.passes();
    let checked = checked_program(alloc, &skyline, profile)?;
    let kind = PlanKind::Skyline(skyline);
    Ok(Planned {
        kind,
        checked,
        passes,
    })
}

fn plan_distinct(alloc: Global, bound: &Bound, profile: &Profile) -> Result<Planned, Memory>
    requires kind { bound.now.shape ≡ shape.Distinct }
    requires keys { AreKeys bound.now (printed_cols bound.now.printed) }
    requires few { greatest_length bound.now.carried ≤ 16 }
    requires within { plan_refusal (need_of bound.now profile.now) profile.now ≡ None }
    requires ranged { IsRanged profile.now }
    ensures { IfOk result (λ p. IsPlanOf p.kind bound.now profile.now) }
{
    let cols = printed_cols(alloc, bound.printed.as_slice())?;
    let key = different_places(alloc, bound, cols.as_slice())?;
    let (ops, width) = (profile.ops, width_of(bound));
    let (rows, columns) = (profile.distinct_rows, profile.distinct_cols);
    let distinct = Distinct::new(Front::bit(), ops, width, rows, columns, key);
    let passes = distinct.passes();
    let checked = checked_program(alloc, &distinct, profile)?;
    let kind = PlanKind::Distinct(distinct);
    Ok(Planned {
        kind,
        checked,
        passes,
    })
}

fn plan_group(
    alloc: Global,
    bound: &Bound,
    profile: &Profile,
    keys: &[Col],
    max: bool,
    value: Col,
) -> Result<Planned, Memory>
    requires kind { bound.now.shape ≡ shape.Group keys.now max value }
    requires keys { AreKeys bound.now keys.now }
    requires carried { IsCarried bound.now value.side value.at }
    requires few { greatest_length bound.now.carried ≤ 16 }
    requires within { plan_refusal (need_of bound.now profile.now) profile.now ≡ None }
    requires ranged { IsRanged profile.now }
    ensures { IfOk result (λ p. IsPlanOf p.kind bound.now profile.now) }
{
    let key = different_places(alloc, bound, keys)?;
    let (ops, width) = (profile.ops, width_of(bound));
    let (rows, columns) = (profile.group_rows, profile.group_cols);
    let value = place_of(bound, value);
    let group = Group::new(Front::bit(), ops, width, rows, columns, key, value, max);
    let passes = group.passes();
    let checked = checked_program(alloc, &group, profile)?;
    let kind = PlanKind::Group(group);
    Ok(Planned {
        kind,
        checked,
        passes,
    })
}

/// The place of what is summed.
fn sum_place(bound: &Bound, sum: Option<Col>) -> Option<u32>
    requires carried { IsSumCarried bound.now sum }
    requires few { greatest_length bound.now.carried ≤ 16 }
    ensures { result ≡ sum_by bound.now.carried sum }
{
    match sum {
        Some(col) => Some(place_of(bound, col)),
        None => None,
    }
}

fn plan_having(
    alloc: Global,
    bound: &Bound,
    profile: &Profile,
    keys: &[Col],
    sum: Option<Col>,
    above: i64,
) -> Result<Planned, Memory>
    requires kind { bound.now.shape ≡ shape.Having keys.now sum above }
    requires keys { AreKeys bound.now keys.now }
    requires carried { IsSumCarried bound.now sum }
    requires above { is_cell_word above ≡ true }
    requires few { greatest_length bound.now.carried ≤ 16 }
    requires within { plan_refusal (need_of bound.now profile.now) profile.now ≡ None }
    requires ranged { IsRanged profile.now }
    ensures { IfOk result (λ p. IsPlanOf p.kind bound.now profile.now) }
{
    let key = different_places(alloc, bound, keys)?;
    let value = sum_place(bound, sum);
    let (ops, width) = (profile.ops, width_of(bound));
    let (hashes, cells) = (profile.sketch_hashes, profile.sketch_cells);
    let front = Front::bit();
    let having = HavingOp::new(front, ops, width, hashes, cells, key, value, above);
    let passes = having.passes();
    let checked = checked_program(alloc, &having, profile)?;
    let kind = PlanKind::Having(having);
    Ok(Planned {
        kind,
        checked,
        passes,
    })
}

fn plan_join(
    alloc: Global,
    bound: &Bound,
    profile: &Profile,
    left: Col,
    right: Col,
) -> Result<Planned, Memory>
    requires kind { bound.now.shape ≡ shape.Join left right }
    requires left { IsCarried bound.now left.side left.at }
    requires right { IsCarried bound.now right.side right.at }
    requires first { left.side ≡ 0 }
    requires second { right.side ≡ 1 }
    requires few { greatest_length bound.now.carried ≤ 16 }
    requires within { plan_refusal (need_of bound.now profile.now) profile.now ≡ None }
    requires ranged { IsRanged profile.now }
    ensures { IfOk result (λ p. IsPlanOf p.kind bound.now profile.now) }
{
    let (ops, width) = (profile.ops, width_of(bound));
    let (hashes, cells) = (profile.bloom_hashes, profile.bloom_cells);
    let first = place_of(bound, left);
    let second = place_of(bound, right);
    let join = JoinOp::new(Front::bit(), ops, width, hashes, cells, first, second);
    let passes = join.passes();
    let checked = checked_program(alloc, &join, profile)?;
    let kind = PlanKind::Join(join);
    Ok(Planned {
        kind,
        checked,
        passes,
    })
}

fn plan_semi(
    alloc: Global,
    bound: &Bound,
    profile: &Profile,
    key: Col,
    inner: Col,
) -> Result<Planned, Memory>
    requires kind { bound.now.shape ≡ shape.Semi key inner }
    requires key { IsCarried bound.now key.side key.at }
    requires inner { IsCarried bound.now inner.side inner.at }
    requires few { greatest_length bound.now.carried ≤ 16 }
    requires within { plan_refusal (need_of bound.now profile.now) profile.now ≡ None }
    requires ranged { IsRanged profile.now }
    ensures { IfOk result (λ p. IsPlanOf p.kind bound.now profile.now) }
{
    let (ops, width) = (profile.ops, width_of(bound));
    let (hashes, cells) = (profile.bloom_hashes, profile.bloom_cells);
    let (rows, cols) = (profile.distinct_rows, profile.distinct_cols);
    let outer = place_of(bound, key);
    let place = place_of(bound, inner);
    let semi = Semi::new(
        Front::bit(),
        ops,
        width,
        hashes,
        cells,
        rows,
        cols,
        outer,
        place,
    );
    let passes = semi.passes();
    let checked = checked_program(alloc, &semi, profile)?;
    let kind = PlanKind::Semi(semi);
    Ok(Planned {
        kind,
        checked,
        passes,
    })
}

/// The plan of a query whose need is within the limits.
pub(crate) fn planned(alloc: Global, bound: &Bound, profile: &Profile) -> Result<Planned, Memory>
    requires kind { IsPlannable bound.now bound.now.shape }
    requires few { greatest_length bound.now.carried ≤ 16 }
    requires within { plan_refusal (need_of bound.now profile.now) profile.now ≡ None }
    requires ranged { IsRanged profile.now }
    ensures { IfOk result (λ p. IsPlanOf p.kind bound.now profile.now) }
{
    match &bound.shape {
        Shape::Filter => plan_filter(alloc, bound, profile),
        Shape::Distinct => plan_distinct(alloc, bound, profile),
        Shape::Group { keys, max, value } => {
            plan_group(alloc, bound, profile, keys.as_slice(), *max, *value)
        }
        Shape::Top {
            by,
            descending,
            limit,
        } => plan_top(alloc, bound, profile, *by, *descending, *limit),
        Shape::Skyline { dims } => plan_skyline(alloc, bound, profile, dims.as_slice()),
        Shape::Having { keys, sum, above } => {
            plan_having(alloc, bound, profile, keys.as_slice(), *sum, *above)
        }
        Shape::Join { left, right } => plan_join(alloc, bound, profile, *left, *right),
        Shape::Semi { key, inner } => plan_semi(alloc, bound, profile, *key, *inner),
    }
}
