ghost use Rattle.std.specs.Prelude.{◌≡◌, ◌≢◌, ◌≤◌, All, IfOk, OnOk};
ghost use Rattle.ch_plan.specs.Kinds.{IsPlanOf, IsPlannable};
ghost use Rattle.ch_plan.specs.Needs.{greatest_length};
ghost use Rattle.ch_plan.specs.Ranged.{IsRanged};
ghost use Rattle.cheetah_pack_meaning.specs.Limits.{pack_line};
ghost use Rattle.cheetah_pack.specs.Planning.{IsAsked, PlansAll, PlansOne};

use crate::questions::number_line;
use ch_cells::{Bytes, Listed, Memory};
use ch_ir::Profile;
use ch_messages::limit_text;
use ch_pack::PackError;
use ch_plan::{Planned, plan};
use ch_pred::Bound;
use cheetah_inputs::{Refusal, Shared, plan_line};
use std::alloc::Global;

/// The plan of a query, or the line that refuses it, with its number.
fn plan_numbered(
    alloc: Global,
    number: usize,
    bound: &Bound,
    profile: &Profile,
) -> Result<Planned, Refusal>
    requires kind { IsPlannable bound.now bound.now.shape }
    requires few { greatest_length bound.now.carried ≤ 16 }
    requires ranged { IsRanged profile.now }
    ensures { PlansOne number bound.now profile.now result }
{
    match plan(alloc, bound, profile) {
        Ok(planned) => Ok(planned),
        Err(error) => {
            let line = plan_line(alloc, error)?;
            Err(Refusal::Line(number_line(alloc, number, line.as_slice())?))
        }
    }
}

/// The plan of each query in turn, or the line that refuses the first whose own need exceeds a limit.
pub(crate) fn plan_all(
    alloc: Global,
    shared: &Shared,
    bounds: &[Bound],
) -> Result<Listed<Planned>, Refusal>
    requires { All (λ bound. IsAsked shared.now bound) bounds.now }
    ensures { PlansAll shared.now bounds.now result }
{
    let mut plans = Listed::new(alloc);
    for number in 0..bounds.len() {
        match plan_numbered(alloc, number, &bounds[number], &shared.profile) {
            Ok(planned) => plans.push(planned)?,
            Err(why) => return Err(why),
        }
    }
    Ok(plans)
}

/// The limit that the need of all plans together exceeds. Want of memory has no line.
pub(crate) fn pack_line(alloc: Global, error: PackError) -> Result<Bytes, Memory>
    ensures line { IfOk result (λ said. said ≡ pack_line error) }
    ensures known { OnOk result (error ≢ PackError.Memory) }
{
    match error {
        PackError::Limit { which, need, have } => {
            let which = limit_text(which);
            let said = format!(in alloc; "pack refused: {which} need {need} have {have}\n")?;
            Ok(Bytes::from_vec(said.into_bytes()))
        }
        PackError::Memory => Err(Memory),
    }
}
