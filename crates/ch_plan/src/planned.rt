ghost use Rattle.std.specs.Prelude.{◌≡◌, ◌<◌, ◌≤◌, ◌-◌, ◌^◌, Some, None, length, IfErr, IfOk};
ghost use Rattle.ch_ir.specs.Measure.{first_refusal, most_ops};
ghost use Rattle.ch_plan.specs.Needs.{greatest_length, need_of, plan_refusal};
ghost use Rattle.ch_plan.specs.Ranged.{IsRanged};
ghost use Rattle.ch_plan.specs.Kinds.{IsPlanOf, IsPlannable, kind_program, kind_times};

use crate::error::PlanError;
use crate::kind::PlanKind;
use crate::kinds::planned;
use crate::needs::{need_of, plan_refusal};
use ch_cells::Memory;
use ch_ir::{Profile, Program, Refused};
use ch_pred::Bound;
use ch_prune::Operator;
use ch_verify::{Checked, verify};
use std::alloc::Global;

/// An operator, its checked program, and in how many passes the rows are processed.
#[derive(Drop)]
pub struct Planned {
    pub kind: PlanKind,
    pub checked: Checked,
    pub passes: u8,
    ghost same: { checked ≡ kind_program kind },
    ghost times: { passes ≡ kind_times kind },
}

/// Takes a program that the verifier accepts.
fn accept(alloc: Global, program: Program, profile: &Profile) -> Result<Checked, Memory>
    requires passes { first_refusal profile.now program ≡ None }
    requires stages { length program.stages < 2 ^ 32 - 1 }
    requires ops { most_ops program.stages < 2 ^ 32 - 1 }
    ensures { IfOk result (λ checked. checked ≡ program) }
{
    match verify(alloc, program, profile) {
        Ok(checked) => Ok(checked),
        Err(Refused::Memory) => Err(Memory),
        Err(_) => unreachable!(),
    }
}

/// The checked program of an operator whose needs are within the limits of the profile.
pub(crate) fn checked_program<O: Operator>(
    alloc: Global,
    operator: &O,
    profile: &Profile,
) -> Result<Checked, Memory>
    requires within { plan_refusal (O.needs operator.now) profile.now ≡ None }
    requires most { O.most operator.now ≤ profile.now.ops }
    requires ranged { IsRanged profile.now }
    ensures { IfOk result (λ checked. checked ≡ O.program operator.now) }
{
    let program = operator.emit(alloc)?;
    accept(alloc, program, profile)
}

/// Plans a query, or answers the first limit that its need exceeds.
pub fn plan(alloc: Global, bound: &Bound, profile: &Profile) -> Result<Planned, PlanError>
    requires kind { IsPlannable bound.now bound.now.shape }
    requires few { greatest_length bound.now.carried ≤ 16 }
    requires ranged { IsRanged profile.now }
    ensures planned { IfOk result (λ p. IsPlanOf p.kind bound.now profile.now) }
    ensures refused { (e : PlanError) → plan_refusal (need_of bound.now profile.now) profile.now ≡ Some e → result ≡ Err e }
    ensures memory { plan_refusal (need_of bound.now profile.now) profile.now ≡ None → IfErr result (λ e. e ≡ PlanError.Memory) }
{
    let need = need_of(bound, profile);
    if let Some(refused) = plan_refusal(need, profile) {
        return Err(refused);
    }
    Ok(planned(alloc, bound, profile)?)
}
