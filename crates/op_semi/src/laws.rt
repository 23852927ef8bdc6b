ghost use Rattle.op_semi.specs.Worked.{WorkedRows};

/// Worked rows: the policy's verdicts, and the program's.
pub fn worked()
    ensures { WorkedRows }
{}
