ghost use Rattle.std.specs.Prelude.{◌≡◌, ◌≤◌, ℕ, All, List, length, not, true, false};
ghost use Rattle.std.specs.List.{list_all};
ghost use Rattle.ch_protocol.specs.Machine.{Event};
ghost use Rattle.ch_schedule.specs.Bad.{IsSchedule, is_forged};
ghost use Rattle.ch_schedule.specs.declared.step.Schedule.{Schedule};
ghost use Rattle.ch_schedule.specs.declared.step.Step.{Step};
ghost use Rattle.ch_schedule.specs.Event.{event_of, events_of};

/// A step stands for an event of the protocol, and so a schedule for a list of events: each list of events is that of some
/// steps.
pub fn every_event_is_a_step()
    ensures { (events : List Event) → (steps : List Step) × (events_of steps ≡ events) }
{}

/// A schedule that is read has at most 1,000,000 steps, and no bytes of theirs are a packet.
pub fn read_schedules_are_within_limits()
    ensures few { (texts : List (List ℕ)) (schedule : Schedule) → IsSchedule texts schedule → length schedule.steps ≤ 1000000 }
    ensures unforged { (texts : List (List ℕ)) (schedule : Schedule) → IsSchedule texts schedule → All (λ step. is_forged step ≡ false) schedule.steps }
    ensures fair { (texts : List (List ℕ)) (schedule : Schedule) → IsSchedule texts schedule → list_all (λ step. not (is_forged step)) schedule.steps ≡ true }
{}
