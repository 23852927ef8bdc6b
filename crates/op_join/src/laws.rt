ghost use Rattle.op_join.specs.Worked.{WorkedRows};

/// Worked rows: the policy's verdicts, and the program's.
pub fn worked()
    ensures { WorkedRows }
{}
