ghost use Rattle.std.specs.Prelude.{◌≡◌, ◌≤◌, ℕ, Option, Some};
ghost use Rattle.ch_cover.specs.Rows.{Row};
ghost use Rattle.ch_ir.specs.Machine.{given, read, truth};
ghost use Rattle.ch_verdicts.specs.Handed.{handed};
ghost use Rattle.ch_verdicts.specs.declared.Slot.{Slot};
ghost use Rattle.ch_prune.specs.Fronts.{front_operand, passes_front};

/// The front's word is 1 for a row that passes and 0 for one that doesn't, whatever its side, and in a packed program too.
pub fn fronts_tell()
    ensures { (width : ℕ) (slot : Option Slot) (pass : ℕ) (r : Row) → 3 ≤ width → read (given width (handed slot pass r)) front_operand ≡ Some (truth (passes_front r)) }
{}
