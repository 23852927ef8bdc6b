ghost use Rattle.std.specs.Prelude.{◌≡◌, ◌<◌, ◌≤◌, ◌^◌, length, IfNone};
ghost use Rattle.ch_ir.specs.Measure.{stage_end, stages_end};
ghost use Rattle.ch_ir.specs.Rules.{after_stage, after_stages, stage_refusal, stages_refusal, with_arrays};
ghost use Rattle.ch_verify.specs.Fits.{AllStagesFit, StageFits};
ghost use Rattle.ch_verify.specs.Known.{known_of, used_of};

use crate::access::accesses_refusal;
use crate::known::ops_refusal;
use ch_ir::{Array, Interval, Refused, Stage};

/// The first rule that a stage breaks. Where there is none, what it assigns is known then, and its array is used.
fn stage_refusal(
    arrays: &[Array],
    stage: u32,
    used: &mut [bool],
    known: &mut [Option<Interval>],
    t: &Stage,
) -> Option<Refused>
    requires room { stage_end arrays.now t.now ≤ length known.old }
    requires small { length known.old < 2 ^ 32 }
    requires flags { length used.old ≡ length arrays.now }
    ensures rule { result ≡ stage_refusal arrays.now stage (used_of used.old) (known_of known.old) t.now }
    ensures known { IfNone result (known_of known.new ≡ after_stage arrays.now t.now (known_of known.old)) }
    ensures used { IfNone result (used_of used.new ≡ with_arrays (used_of used.old) t.now.accesses) }
    ensures fits { IfNone result (StageFits t.now) }
{
    if let Some(refused) = ops_refusal(stage, t.ops.as_slice(), known) {
        return Some(refused);
    }
    accesses_refusal(arrays, stage, used, known, t.accesses.as_slice())
}

/// The first rule that the stages break in order.
pub fn stages_refusal(
    arrays: &[Array],
    stages: &[Stage],
    used: &mut [bool],
    known: &mut [Option<Interval>],
) -> Option<Refused>
    requires room { stages_end arrays.now stages.now ≤ length known.old }
    requires small { length known.old < 2 ^ 32 }
    requires flags { length used.old ≡ length arrays.now }
    requires many { length stages.now < 2 ^ 32 }
    ensures rule { result ≡ stages_refusal arrays.now 0 (used_of used.old) (known_of known.old) stages.now }
    ensures known { IfNone result (known_of known.new ≡ after_stages arrays.now stages.now (known_of known.old)) }
    ensures fits { IfNone result (AllStagesFit stages.now) }
{
    let mut stage: u32 = 0;
    for t in stages {
        if let Some(refused) = stage_refusal(arrays, stage, used, known, t) {
            return Some(refused);
        }
        stage += 1;
    }
    None
}
