ghost use Rattle.std.specs.Prelude.{◌≡◌, ◌<◌, ◌≤◌, ◌-◌, ◌^◌, Some, None, length, IfErr, IfOk};
ghost use Rattle.ch_ir.specs.Measure.{first_refusal, most_ops};
ghost use Rattle.ch_plan.specs.Ranged.{IsRanged};
ghost use Rattle.ch_pack_laws.specs.Needs.{packed_need};
ghost use Rattle.ch_pack.specs.Plans.{AllMade, IsPacked, needs_of, pack_refusal};

use crate::error::PackError;
use crate::needs::{pack_refusal, packed_need};
use crate::program::{bases_of, packed_program, selector_of};
use ch_cells::{Listed, Memory};
use ch_ir::{Profile, Program, Refused};
use ch_plan::Planned;
use ch_verify::{Checked, verify};
use std::alloc::Global;

/// Several plans in one program: the word that selects one of them by its number, and the first array of each.
#[derive(Drop)]
pub struct Packed {
    pub checked: Checked,
    pub selector: u32,
    pub bases: Listed<u32>,
}

/// Takes a program that the verifier accepts.
fn accept(alloc: Global, program: Program, profile: &Profile) -> Result<Checked, Memory>
    requires passes { first_refusal profile.now program ≡ None }
    requires stages { length program.stages < 2 ^ 32 - 1 }
    requires ops { most_ops program.stages < 2 ^ 32 - 1 }
    ensures { IfOk result (λ checked. checked ≡ program) }
{
    match verify(alloc, program, profile) {
        Ok(checked) => Ok(checked),
        Err(Refused::Memory) => Err(Memory),
        Err(_) => unreachable!(),
    }
}

/// Packs plans that were made under the profile, or answers the first limit that their need exceeds.
pub fn pack(alloc: Global, plans: &[Planned], profile: &Profile) -> Result<Packed, PackError>
    requires some { 1 ≤ length plans.now }
    requires few { length plans.now ≤ 4 }
    requires made { AllMade profile.now plans.now }
    requires ranged { IsRanged profile.now }
    ensures packed { IfOk result (λ it. IsPacked plans.now profile.now it) }
    ensures refused { (e : PackError) → pack_refusal (packed_need (needs_of plans.now)) profile.now ≡ Some e → result ≡ Err e }
    ensures memory { pack_refusal (packed_need (needs_of plans.now)) profile.now ≡ None → IfErr result (λ e. e ≡ PackError.Memory) }
{
    let need = packed_need(plans);
    if let Some(refused) = pack_refusal(need, profile) {
        return Err(refused);
    }
    let selector = selector_of(plans);
    let bases = bases_of(alloc, plans)?;
    let program = packed_program(alloc, selector, plans)?;
    let checked = accept(alloc, program, profile)?;
    Ok(Packed {
        checked,
        selector,
        bases,
    })
}
