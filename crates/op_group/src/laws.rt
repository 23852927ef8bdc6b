ghost use Rattle.op_group.specs.Worked.{Worked};

/// Worked verdicts of programs on a few rows: the last pair is replaced, the greatest and the least of values below 0 and
/// above, a row whose bit isn't set, and keys of two words.
pub fn worked_verdicts()
    ensures { Worked }
{}
