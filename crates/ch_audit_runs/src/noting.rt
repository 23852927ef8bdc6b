ghost use Rattle.std.specs.Prelude.{◌≡◌, ◌<◌, ◌≤◌, ◌+◌, ◌^◌, ℕ, false, map, IfOk, OnOk};
ghost use Rattle.ch_protocol.specs.Drain.{drain};
ghost use Rattle.ch_protocol.specs.Machine.{Config, State, step as step_of, stopped as has_stopped, workers};
ghost use Rattle.ch_schedule.specs.Bad.{is_forged};
ghost use Rattle.ch_schedule.specs.Event.{event_of};
ghost use Rattle.ch_trace_lines.specs.Trace.{drain_steps, lines_from, noted_at};
ghost use Rattle.ch_trace_lines.specs.declared.line.Line.TheVariants as line;

use ch_cells::{Listed, Memory};
use ch_schedule::Step;
use ch_trace_lines::Noted;

/// A run of the protocol that notes its steps.
pub trait Noting {
    /// What holds of it at each moment.
    ghost valid: { Self → Type 0 };

    /// The configuration of the run, and the state in which it is.
    ghost stands: { Self → Config → State → Type 0 };

    /// How often its switch was restarted.
    ghost epoch: { Self → ℕ };

    /// Whether the last pass is confirmed.
    fn stopped(&self) -> bool
        ensures { (c : Config) (s : State) → stands self.now c s → result ≡ has_stopped c s };

    /// The pass that it is in.
    fn pass(&self) -> Result<u8, Memory>
        ensures { (c : Config) (s : State) → stands self.now c s → 0 < workers c → IfOk result (λ pass. pass ≡ s.pass) };

    /// One step, with the line that the trace has of it.
    fn step_noted(&mut self, event: &Step) -> Result<Noted, Memory>
        requires valid { valid self.old }
        requires going { (c : Config) (s : State) → stands self.old c s → has_stopped c s ≡ false }
        requires epoch { epoch self.old + 1 < 2 ^ 32 }
        requires unforged { is_forged event.now ≡ false }
        ensures valid { OnOk result (valid self.new) }
        ensures epoch { OnOk result (epoch self.new ≤ epoch self.old + 1) }
        ensures ok { (c : Config) (s : State) → stands self.old c s → OnOk result (stands self.new c (step_of c s (event_of event.now))) }
        ensures note { (c : Config) (s : State) → stands self.old c s → IfOk result (λ n. n ≡ noted_at c s event.now) };

    /// Its drain, with the lines that the trace has of its events.
    fn drain_noted(&mut self) -> Result<Listed<Noted>, Memory>
        requires { valid self.old }
        ensures valid { OnOk result (valid self.new) }
        ensures ok { (c : Config) (s : State) → stands self.old c s → OnOk result (stands self.new c (drain c s)) }
        ensures notes { (c : Config) (s : State) → stands self.old c s → 0 < workers c → IfOk result (λ ns. map line.Event ns ≡ lines_from c s (drain_steps c s)) };
}
