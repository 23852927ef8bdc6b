ghost use Rattle.std.specs.Prelude.{◌≡◌, ◌<◌, ◌≤◌, ◌^◌, length, IfOk};
ghost use Rattle.ch_asked.specs.Texts.{asked_texts, dictionary_of};
ghost use Rattle.ch_audit_runs.specs.Checking.{IsChecked};
ghost use Rattle.ch_command.specs.Reading.{most_bytes};
ghost use Rattle.ch_plan.specs.Kinds.{IsPlanOf};
ghost use Rattle.ch_protocol.specs.Machine.{start};
ghost use Rattle.ch_trace_lines.specs.Trace.{trace_of};
ghost use Rattle.cheetah_inputs.specs.Inputs.{given_of};
ghost use Rattle.cheetah_run.specs.Asking.{AreAsked};
ghost use Rattle.cheetah_run.specs.Running.{config_of};
ghost use Rattle.cheetah_audit.specs.Runs.{IsAt};

use crate::audited::Audited;
use ch_asked::rank_texts;
use ch_audit_runs::{Checked, check, write};
use ch_cells::{Bytes, Memory};
use ch_plan::Planned;
use ch_ranks::Ranks;
use ch_run::Run;
use cheetah_inputs::Inputs;
use std::alloc::Global;

/// The run of a planned query over its tables, at its start.
fn begin<'a>(
    alloc: Global,
    inputs: &'a Inputs,
    ranks: &'a Ranks,
    planned: Planned,
) -> Result<Audited<'a>, Memory>
    requires asked { AreAsked inputs.now }
    requires plan { IsPlanOf planned.kind inputs.now.bound inputs.now.profile }
    requires ranks { ranks.now ≡ dictionary_of (asked_texts inputs.now.bound inputs.now.tables) }
    requires few { length ranks.now < 2 ^ 32 }
    ensures { let c = config_of (given_of inputs.now) in IfOk result (λ x. IsAt x.run x.last c (start c)) }
{
    let last = planned.passes;
    let tables = inputs.tables.as_slice();
    let window = inputs.profile.window;
    let run = Run::start(alloc, tables, &inputs.bound, ranks, planned, window)?;
    Ok(Audited { run, last })
}

/// Runs a planned query along its schedule, and writes the trace.
pub(crate) fn write_run(alloc: Global, inputs: &Inputs, planned: Planned) -> Result<Bytes, Memory>
    requires asked { AreAsked inputs.now }
    requires plan { IsPlanOf planned.kind inputs.now.bound inputs.now.profile }
    ensures { IfOk result (λ text. text ≡ trace_of (config_of (given_of inputs.now)) inputs.now.schedule) }
{
    let ranks = rank_texts(alloc, &inputs.bound, inputs.tables.as_slice())?;
    let mut run = begin(alloc, inputs, &ranks, planned)?;
    write(alloc, &mut run, &inputs.schedule)
}

/// Checks a text as the trace of a run of a planned query.
pub(crate) fn check_run(
    alloc: Global,
    inputs: &Inputs,
    planned: Planned,
    text: &[u8],
) -> Result<Checked, Memory>
    requires asked { AreAsked inputs.now }
    requires plan { IsPlanOf planned.kind inputs.now.bound inputs.now.profile }
    requires short { length text.now ≤ most_bytes }
    ensures { IfOk result (λ checked. IsChecked (config_of (given_of inputs.now)) text.now checked) }
{
    let ranks = rank_texts(alloc, &inputs.bound, inputs.tables.as_slice())?;
    let mut run = begin(alloc, inputs, &ranks, planned)?;
    check(alloc, &mut run, text)
}
