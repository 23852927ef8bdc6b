//! What holds of the trace of each run whose packets are packets: its lines can be read, and they tell which rows the master
//! receives. Laws about definitions.
#![tactic(auto)]

ghost use Rattle.std.specs.Prelude.{◌≡◌, ◌≢◌, ◌<◌, ◌≤◌, ◌^◌, ℕ, false, List, length};
ghost use Rattle.ch_lists.specs.Members.{Each};
ghost use Rattle.ch_protocol.specs.Machine.{Config, State, start, step, stopped, workers};
ghost use Rattle.ch_protocol.specs.declared.fate.NoteFate.TheVariants.{New};
ghost use Rattle.ch_schedule.specs.Bad.{IsSchedule};
ghost use Rattle.ch_schedule.specs.Event.{event_of};
ghost use Rattle.ch_schedule.specs.declared.step.Schedule.{Schedule};
ghost use Rattle.ch_schedule.specs.declared.step.Step.{Step};
ghost use Rattle.ch_trace_lines.specs.Range.{IsLine};
ghost use Rattle.ch_trace_lines.specs.Trace.{noted_at, steps_done, trace_lines};
ghost use Rattle.ch_trace_laws.specs.Sendable.{AreSendable, IsReadable, IsSendable, Receives};

/// Each line of the trace of a schedule can be read, where its steps can be spelled, and there is a worker and the window has
/// room for a number.
pub fn lines_are_in_range()
    ensures { (c : Config) (schedule : Schedule) → AreSendable c → 0 < workers c → 1 ≤ c.window → Each IsReadable schedule.steps → length schedule.steps < 2 ^ 32 → Each IsLine (trace_lines c (steps_done c schedule)) }
{}

/// The steps of a schedule that is read can be spelled.
pub fn read_steps_are_readable()
    ensures { (texts : List (List ℕ)) (schedule : Schedule) → IsSchedule texts schedule → Each IsReadable schedule.steps }
{}

/// A step whose fate is that a packet is new to the master tells its bytes, and by any other the master receives nothing.
pub fn rows_are_noted()
    ensures came { (c : Config) (s : State) (x : Step) → IsSendable c s → stopped c s ≡ false → (noted_at c s x).fate ≡ New → Receives c s (step c s (event_of x)) (noted_at c s x).bytes }
    ensures others { (c : Config) (s : State) (x : Step) → stopped c s ≡ false → (noted_at c s x).fate ≢ New → (step c s (event_of x)).received ≡ s.received }
{}
