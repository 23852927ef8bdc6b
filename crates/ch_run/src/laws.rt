ghost use Rattle.std.specs.Prelude.{◌≡◌, ◌<◌, ◌≤◌, ℕ, true, false, List, All, length};
ghost use Rattle.ch_ir.specs.declared.profile.Profile.{Profile};
ghost use Rattle.ch_parts.specs.Scanned.{AreTables, asked_tables, parts_of};
ghost use Rattle.ch_plan.specs.Kinds.{IsPlanOf, kind_times};
ghost use Rattle.ch_plan.specs.declared.kind.PlanKind.{PlanKind};
ghost use Rattle.ch_pred.specs.Meaning.{answer};
ghost use Rattle.ch_pred.specs.declared.bound.Bound.{Bound};
ghost use Rattle.ch_protocol.specs.Machine.{Event, State, IsReached, passes, stopped, workers};
ghost use Rattle.ch_protocol.specs.Outcome.{after_schedule, outcome};
ghost use Rattle.ch_protocol.specs.Outcome.Outcome.{Done};
ghost use Rattle.ch_protocol.specs.Received.{rows_arrived};
ghost use Rattle.ch_schedule.specs.Bad.{IsSchedule, is_forged};
ghost use Rattle.ch_schedule.specs.declared.step.Schedule.{Schedule};
ghost use Rattle.ch_survival.specs.Asked.{answer_arrived};
ghost use Rattle.ch_tables.specs.TableValue.{TableValue};
ghost use Rattle.ch_verdicts.specs.Handed.{IsPass};
ghost use Rattle.ch_run.specs.Asked.{config_of};

/// Once a run of a planned query has stopped, whatever its links did and whenever its switch restarted, the answer over what
/// the master received is the query's over its tables.
pub fn stopped_runs_answer()
    ensures { (texts : List (List ℕ)) (b : Bound) (tables : List TableValue) (k : PlanKind) (profile : Profile) (window : ℕ) → AreTables texts b tables → IsPlanOf k b profile → IsPass (kind_times k)
        → let c = config_of texts b tables k window in (s : State) → IsReached c s → stopped c s ≡ true
        → answer b (asked_tables b tables) ≡ answer_arrived texts b (rows_arrived c (passes c) s.received) }
{}

/// A run whose schedule ends in a drain is done, where there is a worker and the window has room for a number.
pub fn drained_runs_are_done()
    ensures { (texts : List (List ℕ)) (b : Bound) (tables : List TableValue) (k : PlanKind) (window : ℕ) (events : List Event)
        → let c = config_of texts b tables k window in 0 < workers c → 1 ≤ window → outcome c (after_schedule c events true) ≡ Done (after_schedule c events true).counts }
{}

/// A schedule that is read may be followed: none of its steps injects a packet, and they are few.
pub fn schedules_may_be_followed()
    ensures unforged { (texts : List (List ℕ)) (schedule : Schedule) → IsSchedule texts schedule → All (λ x. is_forged x ≡ false) schedule.steps }
    ensures few { (texts : List (List ℕ)) (schedule : Schedule) → IsSchedule texts schedule → length schedule.steps ≤ 1000000 }
{}
