ghost use Rattle.std.specs.Prelude.{◌≡◌, ◌≤◌, ℕ, List, None, length};
ghost use Rattle.std.specs.declared.result.Result.TheVariants.{Ok};
ghost use Rattle.ch_ir.specs.Profile.{default_settings, profile_of};
ghost use Rattle.ch_ir.specs.Measure.{first_refusal};
ghost use Rattle.ch_ir.specs.declared.profile.Profile.{Profile};
ghost use Rattle.ch_lists.specs.Members.{Each};
ghost use Rattle.ch_pred.specs.Sound.{IsSound};
ghost use Rattle.ch_pred.specs.declared.bound.Bound.{Bound};
ghost use Rattle.ch_pred.specs.declared.pred.BoundPred.{BoundPred};
ghost use Rattle.ch_words.specs.Rows.{Gate};
ghost use Rattle.ch_words.specs.Words.{Reading};
ghost use Rattle.ch_plan.specs.Needs.{greatest_length, plan_refusal};
ghost use Rattle.ch_plan.specs.Kinds.{Holds, IsPlannable, NumbersFit, kind_most, kind_needs, kind_program, kind_serves};
ghost use Rattle.ch_plan.specs.Policy.{policy_of};
ghost use Rattle.ch_plan.specs.Ranged.{IsRanged};
ghost use Rattle.ch_plan.specs.Worked.{NeedsOfKinds, RefusalsInOrder};
ghost use Rattle.ch_plan.specs.declared.kind.PlanKind.{PlanKind};

/// An operator whose needs are within the limits of a profile has a program that the verifier accepts.
pub fn planned_programs_pass()
    ensures { (k : PlanKind) (profile : Profile) → plan_refusal (kind_needs k) profile ≡ None → kind_most k ≤ profile.ops → first_refusal profile (kind_program k) ≡ None }
{}

/// Of each query that it serves an operator's policy covers the answer, and its program has the policy's verdicts, over the
/// rows that workers send.
pub fn plans_hold()
    ensures { (k : PlanKind) (d : Reading) (b : Bound) (gate : Gate) → kind_serves k d b gate → Holds k d b gate }
{}

/// A sound query whose numbers are in their ranges is plannable; with at most 16 carried columns of each table, that is all
/// that `plan` asks of a query.
pub fn sound_queries_are_plannable()
    ensures kind { (b : Bound) → IsSound b → NumbersFit b.shape → IsPlannable b b.shape }
    ensures few { (b : Bound) → Each (λ columns. length columns ≤ 16) b.carried → greatest_length b.carried ≤ 16 }
{}

/// What the plan of a query prunes doesn't hang on its filter.
pub fn policies_know_no_filter()
    ensures { (b : Bound) (filter : BoundPred) (profile : Profile) → policy_of (record b { filter = filter }) profile ≡ policy_of b profile }
{}

/// Worked needs of a query of each of the eight kinds, and a plan that is refused by each limit in turn.
pub fn worked()
    ensures needs { NeedsOfKinds }
    ensures refusals { RefusalsInOrder }
{}

/// A profile that is read from a text, and the default one, have their numbers in their ranges.
pub fn profiles_are_ranged()
    ensures read { (text : List ℕ) (profile : Profile) → profile_of text ≡ Ok profile → IsRanged profile }
    ensures unread { IsRanged default_settings }
{}
