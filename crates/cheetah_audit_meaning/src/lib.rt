//! What the audit comes to, over any configuration of runs: laws about definitions.
#![tactic(auto)]

ghost use Rattle.std.specs.Prelude.{◌≡◌, ℕ, List};
ghost use Rattle.ch_command.specs.Command.{IsCommand, answered};
ghost use Rattle.ch_command.specs.declared.outcome.Ending.TheVariants as ending;
ghost use Rattle.ch_command.specs.declared.outcome.Outcome.{Outcome};
ghost use Rattle.ch_audit_laws.specs.Own.{steps_in};
ghost use Rattle.ch_audit_laws.specs.Said.{accepted_text};
ghost use Rattle.ch_lists.specs.Members.{Each};
ghost use Rattle.ch_protocol.specs.Machine.{Config};
ghost use Rattle.ch_schedule.specs.declared.step.Schedule.{Schedule};
ghost use Rattle.ch_trace_lines.specs.Range.{IsLine};
ghost use Rattle.ch_trace_lines.specs.Trace.{IsTrace, steps_done, trace_lines, trace_of};
ghost use Rattle.cheetah_audit_words.specs.Words.{Wish};
ghost use Rattle.cheetah_audit_meaning.specs.Meaning.{OfTrace, Runs, command_for};

/// Whatever the words are and whatever the files hold, the command comes to one thing.
pub fn words_are_commands()
    ensures { (runs : Runs) (wish : Wish) → IsCommand (command_for runs wish) }
{}

/// A text that is accepted is a trace. What is written of a run is accepted, where each line of it is one that can be read.
pub fn traces_are_checked()
    ensures accepted { (c : Config) (text : List ℕ) (outcome : Outcome) → OfTrace c text outcome → outcome.ending ≡ ending.Done → IsTrace c text }
    ensures written { (c : Config) (schedule : Schedule) (outcome : Outcome) → Each IsLine (trace_lines c (steps_done c schedule)) → OfTrace c (trace_of c schedule) outcome → outcome ≡ answered (accepted_text c (steps_in (trace_lines c (steps_done c schedule)))) }
{}
