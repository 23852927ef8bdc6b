ghost use Rattle.op_distinct.specs.Worked.{Worked};

/// Worked verdicts of programs on a few rows: a key that is cached, the latest used key in front, a row whose bit isn't set,
/// and keys of two words.
pub fn worked_verdicts()
    ensures { Worked }
{}
