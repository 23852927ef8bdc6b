ghost use Rattle.std.specs.Prelude.{◌≡◌, ◌<◌, ◌^◌};
ghost use Rattle.ch_plan.specs.Kinds.{kind_needs};
ghost use Rattle.ch_pack_laws.specs.Needs.{packed_need};
ghost use Rattle.ch_pack.specs.Plans.{exceeds, needs_of, pack_refusal};

use crate::error::PackError;
use ch_ir::{LimitName, Profile};
use ch_plan::{PlanKind, Planned};
use ch_prune::{Need, Operator};

fn need_of(kind: &PlanKind) -> Need
    ensures { result ≡ kind_needs kind.now }
{
    match kind {
        PlanKind::Filter(operator) => operator.need(),
        PlanKind::Distinct(operator) => operator.need(),
        PlanKind::Top(operator) => operator.need(),
        PlanKind::Group(operator) => operator.need(),
        PlanKind::Having(operator) => operator.need(),
        PlanKind::Join(operator) => operator.need(),
        PlanKind::Skyline(operator) => operator.need(),
        PlanKind::Semi(operator) => operator.need(),
    }
}

/// What the packed plans need of each limit.
pub(crate) fn packed_need(plans: &[Planned]) -> Need
    requires width { (packed_need (needs_of plans.now)).width < 2 ^ 64 }
    requires words { (packed_need (needs_of plans.now)).words < 2 ^ 64 }
    requires stages { (packed_need (needs_of plans.now)).stages < 2 ^ 64 }
    ensures { result ≡ packed_need (needs_of plans.now) }
{
    let (mut width, mut cells) = (0, 0);
    let (mut words, mut stages) = (0, 0);
    for plan in plans {
        let need = need_of(&plan.kind);
        width = need.width.max(width);
        cells = need.cells.max(cells);
        words += need.words + need.stages;
        stages += need.stages;
    }
    Need {
        width: width + 1,
        cells,
        words: width + 1 + words + 16,
        stages: 2 + 2 * stages,
    }
}

fn exceeds(which: LimitName, need: u64, have: u32) -> Option<PackError>
    ensures { result ≡ exceeds which need have }
{
    let have = u64::from(have);
    if have < need {
        Some(PackError::Limit { which, need, have })
    } else {
        None
    }
}

/// The first limit that the need exceeds.
pub(crate) fn pack_refusal(need: Need, profile: &Profile) -> Option<PackError>
    ensures { result ≡ pack_refusal need profile.now }
{
    exceeds(LimitName::Width, need.width, profile.width)
        .or(exceeds(LimitName::Cells, need.cells, profile.cells))
        .or(exceeds(LimitName::Words, need.words, profile.words))
        .or(exceeds(LimitName::Stages, need.stages, profile.stages))
}
