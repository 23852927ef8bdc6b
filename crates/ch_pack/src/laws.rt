ghost use Rattle.ch_ir.specs.declared.profile.Profile.{Profile};
ghost use Rattle.ch_plan.specs.Kinds.{IsPlanOf};
ghost use Rattle.ch_plan.specs.declared.planned.Planned.{Planned};
ghost use Rattle.ch_pred.specs.declared.bound.Bound.{Bound};
ghost use Rattle.ch_pack.specs.Plans.{IsMade};
ghost use Rattle.ch_pack.specs.Worked.{PackedNeeds};

/// A plan of a query under a profile was made under it.
pub fn plans_are_made()
    ensures { (profile : Profile) (p : Planned) (b : Bound) → IsPlanOf p.kind b profile → IsMade profile p }
{}

/// Worked needs of packed plans, and plans that are refused by each limit in turn.
pub fn worked()
    ensures { PackedNeeds }
{}
