//! When a text is the trace of its own events, and which line of any other is the first that is wrong: laws about definitions.
#![tactic(auto)]

ghost use Rattle.std.specs.Prelude.{◌≡◌, ◌⊎◌, ℕ, List};
ghost use Rattle.ch_lists.specs.Members.{Each};
ghost use Rattle.ch_protocol.specs.Machine.{Config, start};
ghost use Rattle.ch_schedule.specs.declared.step.Step.{Step};
ghost use Rattle.ch_trace_lines.specs.Range.{IsLine};
ghost use Rattle.ch_trace_lines.specs.Trace.{IsTrace, trace_lines, trace_text};
ghost use Rattle.ch_trace_lines.specs.declared.line.Line.{Line};
ghost use Rattle.ch_audit_laws.specs.Own.{IsOwn, IsRefusedAt, cut, steps_in};
ghost use Rattle.ch_audit_laws.specs.Walks.{walk};
ghost use Rattle.ch_audit_laws.specs.Walks.Walk.{Refused, Whole};

/// A text is the trace of its own events, or one line of it is the first that is wrong; and never both.
pub fn traces_are_accepted_or_refused()
    ensures either { (c : Config) (text : List ℕ) → ((lines : List Line) × IsOwn c (cut text) lines) ⊎ ((line : ℕ) × IsRefusedAt c (cut text) line) }
    ensures one_line { (c : Config) (texts : List (List ℕ)) (a b : ℕ) → IsRefusedAt c texts a → IsRefusedAt c texts b → a ≡ b }
    ensures one_trace { (c : Config) (texts : List (List ℕ)) (a b : List Line) → IsOwn c texts a → IsOwn c texts b → a ≡ b }
{}

/// What a walk along the lines finds is that.
pub fn walks_tell()
    ensures whole { (c : Config) (text : List ℕ) (steps : List Step) → walk c (start c) (cut text) ≡ Whole steps → (lines : List Line) × IsOwn c (cut text) lines × (steps_in lines ≡ steps) }
    ensures refused { (c : Config) (text : List ℕ) (line : ℕ) → walk c (start c) (cut text) ≡ Refused line → IsRefusedAt c (cut text) line }
{}

/// The trace of its own events is a trace, and no event of it injects a packet. A trace is the trace of its own events, where
/// each of its lines is one that can be read.
pub fn own_traces_are_traces()
    ensures sound { (c : Config) (text : List ℕ) (lines : List Line) → IsOwn c (cut text) lines → IsTrace c text }
    ensures complete { (c : Config) (steps : List Step) → Each IsLine (trace_lines c steps) → IsOwn c (cut (trace_text c steps)) (trace_lines c steps) }
{}
