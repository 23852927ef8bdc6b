//! Queries that are planned.
ghost use Rattle.std.specs.Prelude.{◌≡◌, ◌<◌, ◌≤◌, [], ◌∷◌, true, false, IfOk, None, length, pos};
ghost use Rattle.ch_plan.specs.Kinds.{IsPlannable};
ghost use Rattle.ch_plan.specs.Needs.{greatest_length};
ghost use Rattle.ch_pred.specs.declared.bound.Shape.TheVariants as shape;

use ch_cells::{Bytes, Kind, Listed, Memory};
use ch_ir::read_profile;
use ch_plan::plan;
use ch_pred::{Arg, Bound, BoundPred, Cmp, Col, Dim, Literal, Printed, Shape};
use std::alloc::Global;

const A: Col = Col { side: 0, at: 0 };

const OTHER: Col = Col { side: 1, at: 0 };

fn one<T: Drop>(alloc: Global, item: T) -> Result<Listed<T>, Memory>
    ensures { IfOk result (λ list. list ≡ item ∷ []) }
{
    let mut list = Listed::new(alloc);
    list.push(item)?;
    Ok(list)
}

/// SELECT a FROM t WHERE a > 4
fn query(alloc: Global) -> Result<Bound, Memory>
    ensures { IfOk result (λ b. (b.shape ≡ shape.Filter) × (b.carried ≡ (0 ∷ []) ∷ [])) }
{
    let tables = one(alloc, 0)?;
    let columns = one(alloc, 0)?;
    let carried = one(alloc, columns)?;
    let kinds = one(alloc, Kind::Number)?;
    let kinds = one(alloc, kinds)?;
    let name = Bytes::from_slice(alloc, b"a")?;
    let header = one(alloc, name)?;
    let printed = one(alloc, Printed::Column(A))?;
    Ok(Bound {
        tables,
        carried,
        kinds,
        header,
        printed,
        filter: BoundPred::Compare(A, Cmp::Gt, Arg::Value(Literal::Number(4))),
        shape: Shape::Filter,
    })
}

/// SELECT a FROM t ORDER BY a DESC LIMIT 2
fn top_query(alloc: Global) -> Result<Bound, Memory>
    ensures { IfOk result (λ b. (b.shape ≡ shape.Top (record { side = 0; at = 0 }) true 2) × (b.carried ≡ (0 ∷ []) ∷ [])) }
{
    let mut query = query(alloc)?;
    query.shape = Shape::Top {
        by: A,
        descending: true,
        limit: 2,
    };
    Ok(query)
}

/// SELECT a FROM t SKYLINE OF a MIN
fn skyline_query(alloc: Global) -> Result<Bound, Memory>
    ensures { IfOk result (λ b. (b.shape ≡ shape.Skyline (record { col = record { side = 0; at = 0 }; max = false } ∷ [])) × (b.carried ≡ (0 ∷ []) ∷ [])) }
{
    let mut query = query(alloc)?;
    let dims = one(alloc, Dim { col: A, max: false })?;
    query.shape = Shape::Skyline { dims };
    Ok(query)
}

/// SELECT a FROM t GROUP BY a HAVING COUNT(*) > 5
fn having_query(alloc: Global) -> Result<Bound, Memory>
    ensures { IfOk result (λ b. (b.shape ≡ shape.Having (record { side = 0; at = 0 } ∷ []) None (pos 5)) × (b.carried ≡ (0 ∷ []) ∷ [])) }
{
    let mut query = query(alloc)?;
    let keys = one(alloc, A)?;
    query.shape = Shape::Having {
        keys,
        sum: None,
        above: 5,
    };
    Ok(query)
}

/// A query that carries the first column of two tables, by its kind.
fn of_two_tables(alloc: Global, shape: Shape) -> Result<Bound, Memory>
    ensures { IfOk result (λ b. (b.shape ≡ shape) × (b.carried ≡ (0 ∷ []) ∷ (0 ∷ []) ∷ [])) }
{
    let mut query = query(alloc)?;
    let columns = one(alloc, 0)?;
    query.carried.push(columns)?;
    query.shape = shape;
    Ok(query)
}

/// How a query is planned by a profile: its number of passes, or why it is refused.
#[tactic(auto, using(ch_plan::proofs::Ranged::read_is_ranged))]
fn planned(alloc: Global, query: &Bound, profile: &[u8]) -> anyhow::Result<String>
    requires text { length profile.now < 1000 }
    requires kind { IsPlannable query.now query.now.shape }
    requires few { greatest_length query.now.carried ≤ 16 }
{
    let profile = read_profile(profile)?;
    match plan(alloc, query, &profile) {
        Ok(planned) => {
            let passes = planned.passes;
            drop(planned);
            Ok(format!(in alloc; "passes {passes}")?)
        }
        Err(error) => Ok(format!(in alloc; "{error:?}")?),
    }
}

fn plan_filter(alloc: Global, profile: &[u8]) -> anyhow::Result<String>
    requires { length profile.now < 1000 }
{
    let query = query(alloc)?;
    planned(alloc, &query, profile)
}

fn plan_top(alloc: Global, profile: &[u8]) -> anyhow::Result<String>
    requires { length profile.now < 1000 }
{
    let query = top_query(alloc)?;
    planned(alloc, &query, profile)
}

fn plan_skyline(alloc: Global, profile: &[u8]) -> anyhow::Result<String>
    requires { length profile.now < 1000 }
{
    let query = skyline_query(alloc)?;
    planned(alloc, &query, profile)
}

fn plan_having(alloc: Global, profile: &[u8]) -> anyhow::Result<String>
    requires { length profile.now < 1000 }
{
    let query = having_query(alloc)?;
    planned(alloc, &query, profile)
}

fn plan_join(alloc: Global, profile: &[u8]) -> anyhow::Result<String>
    requires { length profile.now < 1000 }
{
    let shape = Shape::Join {
        left: A,
        right: OTHER,
    };
    let query = of_two_tables(alloc, shape)?;
    planned(alloc, &query, profile)
}

fn plan_semi(alloc: Global, profile: &[u8]) -> anyhow::Result<String>
    requires { length profile.now < 1000 }
{
    let shape = Shape::Semi {
        key: A,
        inner: OTHER,
    };
    let query = of_two_tables(alloc, shape)?;
    planned(alloc, &query, profile)
}

/// How the query of a kind is planned.
fn plan_kind(alloc: Global, kind: &str, profile: &[u8]) -> anyhow::Result<String>
    requires { length profile.now < 1000 }
{
    match kind {
        "filter" => plan_filter(alloc, profile),
        "top" => plan_top(alloc, profile),
        "skyline" => plan_skyline(alloc, profile),
        "having" => plan_having(alloc, profile),
        "join" => plan_join(alloc, profile),
        "semi" => plan_semi(alloc, profile),
        _ => Ok(String::from_str(alloc, "no kind")?),
    }
}

/// The same by a line's words: the kind, and the text of a profile.
pub(crate) fn plan_by(alloc: Global, said: &str) -> anyhow::Result<String> {
    let (kind, settings) = said.split_once(' ').unwrap_or((said, ""));
    let mut profile = Vec::new(alloc);
    for byte in settings.as_bytes() {
        profile.push(if *byte == b'|' { b'\n' } else { *byte })?;
    }
    if profile.len() < 1000 {
        plan_kind(alloc, kind, profile.as_slice())
    } else {
        Ok(String::from_str(alloc, "too long")?)
    }
}
