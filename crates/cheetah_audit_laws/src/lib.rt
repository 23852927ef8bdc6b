//! What the audit promises of what it has written, and of what it lists: laws about definitions.
#![tactic(auto)]

ghost use Rattle.std.specs.Prelude.{◌≡◌, ℕ, List, [], Some};
ghost use Rattle.ch_command.specs.Call.{Call, Promise};
ghost use Rattle.ch_command.specs.declared.outcome.Ending.TheVariants.{Done};
ghost use Rattle.ch_command.specs.declared.outcome.Outcome.{Outcome};
ghost use Rattle.ch_outside.specs.Shelf.{Files};
ghost use Rattle.cheetah_audit.specs.Result.{command_of};
ghost use Rattle.cheetah_audit_laws.specs.Checked.{Accepts, Asked, CallAccepts, IsKept, to_check, to_write};
ghost use Rattle.cheetah_audit_laws.specs.Listed.{CallLists, IsListing};

/// What is written of a run is accepted by the same words, whether the run is done or open, where the file of the trace holds it
/// and the other files are as they were; or a file is too large for what a command reads. The same of two calls that keep what
/// `cheetah_audit` promises: one that writes on an empty out and has status 0, and one that checks.
pub fn written_traces_are_accepted()
    ensures told { (asked : Asked) (schedule trace : List ℕ) (before after : Files) (written told : Outcome) → (command_of (to_write asked schedule)).comes_to before written → written.ending ≡ Done
        → IsKept asked trace written.out before after → (command_of (to_check asked trace)).comes_to after told → Accepts asked trace written.out after told }
    ensures called { (asked : Asked) (schedule trace text : List ℕ) (before after : Files) (wrote checked : Call) → Promise (command_of (to_write asked schedule)) wrote → wrote.told ≡ Some before
        → wrote.out.old ≡ Some [] → wrote.out.new ≡ Some text → wrote.status ≡ 0
        → IsKept asked trace text before after → Promise (command_of (to_check asked trace)) checked → checked.told ≡ Some after → CallAccepts asked trace text after checked }
{}

/// What is said of a trace that is accepted lists rows of the tables; where it says that the run is done, the query means over
/// them what it means over all rows. The same of a call with status 0 that keeps what `cheetah_audit` promises.
pub fn done_traces_answer()
    ensures told { (asked : Asked) (trace : List ℕ) (files : Files) (told : Outcome) → (command_of (to_check asked trace)).comes_to files told → told.ending ≡ Done → IsListing asked trace files told.out }
    ensures called { (asked : Asked) (trace : List ℕ) (files : Files) (checked : Call) → Promise (command_of (to_check asked trace)) checked → checked.told ≡ Some files → checked.status ≡ 0
        → CallLists asked trace files checked }
{}
