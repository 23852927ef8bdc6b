ghost use Rattle.op_skyline.specs.Worked.{Verdicts};

/// Worked lists of rows: the policy and the program have the same verdicts on them.
pub fn worked()
    ensures { Verdicts }
{}
