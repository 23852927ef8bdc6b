//! Queries whose plans are packed run one after the other on the same registers, and none meets what another left: laws
//! about definitions.
#![tactic(auto)]

ghost use Rattle.std.specs.Prelude.{◌≡◌, ℕ, suc, List};
ghost use Rattle.ch_engine.specs.declared.engine.Engine.{Engine};
ghost use Rattle.ch_ir.specs.Machine.{Registers, cleared};
ghost use Rattle.ch_ir.specs.declared.profile.Profile.{Profile};
ghost use Rattle.ch_pack.specs.Plans.{IsPacked, programs_of};
ghost use Rattle.ch_pack.specs.declared.packing.Packed.{Packed};
ghost use Rattle.ch_plan.specs.declared.planned.Planned.{Planned};
ghost use Rattle.ch_pred.specs.declared.bound.Bound.{Bound};
ghost use Rattle.ch_protocol.specs.Drain.{drain};
ghost use Rattle.ch_protocol.specs.Machine.{Config, State, start};
ghost use Rattle.ch_run.specs.Asked.{MayBegin};
ghost use Rattle.ch_run.specs.Runs.{IsRunOf};
ghost use Rattle.ch_tables.specs.TableValue.{TableValue};
ghost use Rattle.ch_pack_runs.specs.Cleared.{AreClearedFrom};
ghost use Rattle.ch_pack_runs.specs.Runs.{IsPackedPlan, begun_at, switch_over};

/// Before the first run of a packed program the arrays of all plans are cleared.
pub fn installed_programs_are_cleared()
    ensures { (plans : List Planned) (profile : Profile) (it : Packed) → IsPacked plans profile it → AreClearedFrom (programs_of plans) 0 (cleared it.checked.arrays) }
{}

/// Where the arrays from a plan's on are cleared, its run may begin, whatever the runs before it left in theirs.
pub fn packed_queries_may_begin()
    ensures { (plans : List Planned) (profile : Profile) (it : Packed) (q : ℕ) (p : Planned) (texts : List (List ℕ)) (b : Bound) (tables : List TableValue) (workers : ℕ) (registers : Registers)
        → IsPackedPlan plans profile it q p texts b tables → AreClearedFrom (programs_of plans) q registers → MayBegin texts b p.kind workers (switch_over it q workers registers) }
{}

/// A run that was drained leaves the arrays of the plans behind it cleared, and the program as it was.
pub fn drained_runs_leave_the_others_cleared()
    ensures { (plans : List Planned) (profile : Profile) (it : Packed) (q : ℕ) (p : Planned) (texts : List (List ℕ)) (b : Bound) (tables : List TableValue) (window workers : ℕ) (registers : Registers) (x : Engine)
        → IsPackedPlan plans profile it q p texts b tables → AreClearedFrom (programs_of plans) q registers
        → let begun = begun_at it q p texts b tables window workers registers in IsRunOf begun x (drain begun.given.config (start begun.given.config))
        → (x.switch.program ≡ it.checked) × AreClearedFrom (programs_of plans) (suc q) x.switch.registers }
{}

/// A drain restarts no switch.
pub fn drains_stay_in_their_epoch()
    ensures { (c : Config) (s : State) → (drain c s).epoch ≡ s.epoch }
{}
