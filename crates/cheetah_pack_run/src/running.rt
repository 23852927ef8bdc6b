ghost use Rattle.std.specs.Prelude.{◌≡◌, ◌<◌, ◌≤◌, ◌+◌, ◌++◌, codes, suc, length, map, slice_get, Some, IfOk, OnOk};
ghost use Rattle.ch_bind.specs.Binding.{plain_bound};
ghost use Rattle.ch_pack.specs.Plans.{IsPacked};
ghost use Rattle.ch_parts.specs.Scanned.{AreTables, parts_of};
ghost use Rattle.ch_plan.specs.declared.planned.Planned.{Planned as Plan};
ghost use Rattle.ch_protocol.specs.Drain.{drain};
ghost use Rattle.ch_protocol.specs.Machine.{State};
ghost use Rattle.ch_run.specs.Runs.{Begun, IsRunOf};
ghost use Rattle.cheetah_pack_meaning.specs.Saying.{said_in};
ghost use Rattle.cheetah_pack_meaning.specs.Meaning.{said_alone, together};
ghost use Rattle.cheetah_pack_run.specs.Running.{AreAskedPlans, HasStopped, IsAskedPlan, IsInstalled, IsLeft, StopsDrained};

use ch_asked::rank_texts;
use ch_cells::{Bytes, Memory};
use ch_command::{Ending, Outcome};
use ch_ir::Profile;
use ch_pack::Packed;
use ch_pipe::Pipe;
use ch_plan::Planned;
use ch_pred::Bound;
use ch_print::counts_text;
use ch_ranks::Ranks;
use ch_run::{Outcome as RunOutcome, Run};
use ch_sources::new_parts;
use ch_switch::Switch;
use ch_tables::Table;
use std::alloc::Global;

/// The answer and the counts of a run that has stopped.
fn say_done(alloc: Global, run: &Run<'_>) -> Result<Outcome, Memory>
    requires { HasStopped run.now }
    ensures { (q : Begun) (s : State) → IsRunOf q run.now s → IfOk result (λ said. said ≡ said_in q s) }
{
    let outcome = run.outcome()?;
    match &outcome {
        RunOutcome::Done(counts) => {
            let out = run.text()?;
            let err = counts_text(alloc, counts)?;
            Ok(Outcome {
                ending: Ending::Done,
                out,
                err,
            })
        }
        RunOutcome::Open(_) => unreachable!(),
    }
}

/// How many workers scan the query's tables.
fn count_workers(
    alloc: Global,
    tables: &[Table],
    bound: &Bound,
    ranks: &Ranks,
) -> Result<u32, Memory>
    requires tables { AreTables ranks.now bound.now tables.now }
    requires few { length (parts_of ranks.now bound.now tables.now) ≤ 65536 }
    ensures { IfOk result (λ workers. workers ≡ length (parts_of ranks.now bound.now tables.now)) }
{
    let parts = new_parts(alloc, tables, bound, ranks)?;
    Ok(parts.workers() as u32)
}

/// What a query's run leaves and says.
#[derive(Drop)]
struct Ran {
    pipe: Pipe,
    said: Outcome,
}

/// Drains a run, says what it wrote, and hands the program on.
fn drain_over(alloc: Global, run: Run<'_>) -> Result<Ran, Memory>
    requires { StopsDrained run }
    ensures left { (q : Begun) (s : State) → IsRunOf q run.entry s → IfOk result (λ ran. IsLeft q (drain q.given.config s) ran.pipe) }
    ensures said { (q : Begun) (s : State) → IsRunOf q run.entry s → IfOk result (λ ran. ran.said ≡ said_in q (drain q.given.config s)) }
{
    let mut run = run;
    run.drain()?;
    let said = say_done(alloc, &run)?;
    let pipe = run.into_switch().into_pipe();
    Ok(Ran { pipe, said })
}

/// Runs a query over the packed program as it stands, and hands the program on.
fn run_one(
    alloc: Global,
    profile: &Profile,
    tables: &[Table],
    bound: &Bound,
    plans: &[Planned],
    number: usize,
    selector: u32,
    pipe: Pipe,
) -> Result<Ran, Memory>
    requires number { number < length plans.now }
    requires few { length plans.now ≤ 4 }
    requires asked { (p : Plan) → slice_get plans.now number ≡ Some p → IsAskedPlan profile.now tables.now bound.now p }
    requires installed { IsInstalled plans.now profile.now selector number pipe }
    ensures installed { IfOk result (λ ran. IsInstalled plans.now profile.now selector (suc number) ran.pipe) }
    ensures said { IfOk result (λ ran. ran.said ≡ said_alone profile.now tables.now (plain_bound bound.now)) }
{
    let plan = &plans[number];
    let _checked = plan.checked.program();
    let ranks = rank_texts(alloc, bound, tables)?;
    let workers = count_workers(alloc, tables, bound, &ranks)?;
    let switch = Switch::over(alloc, pipe, selector, number as u32, workers)?;
    let run = Run::start_over(alloc, tables, bound, &ranks, plan, profile.window, switch)?;
    drain_over(alloc, run)
}

/// Adds an answer, with an empty line behind it.
fn add_answer(out: &mut Vec<u8>, answer: &[u8]) -> Result<(), Memory>
    ensures { OnOk result (out.new.items ≡ out.old.items ++ (answer.now ++ codes "\n")) }
{
    out.extend_from_slice(answer)?;
    out.push(b'\n')?;
    Ok(())
}

/// Adds the counts of a run.
fn add_counts(err: &mut Vec<u8>, counts: &[u8]) -> Result<(), Memory>
    ensures { OnOk result (err.new.items ≡ err.old.items ++ counts.now) }
{
    err.extend_from_slice(counts)?;
    Ok(())
}

/// Runs the queries one after the other over the one program of their plans, which is installed once and never cleared.
pub fn run_packed(
    alloc: Global,
    profile: &Profile,
    tables: &[Table],
    bounds: &[Bound],
    plans: &[Planned],
    packed: Packed,
) -> Result<Outcome, Memory>
    requires packed { IsPacked plans.now profile.now packed }
    requires few { length plans.now ≤ 4 }
    requires asked { AreAskedPlans profile.now tables.now bounds.now plans.now }
    ensures { IfOk result (λ said. said ≡ together (map (λ b. said_alone profile.now tables.now (plain_bound b)) bounds.now)) }
{
    let Packed {
        checked,
        selector,
        bases,
    } = packed;
    drop(bases);
    let mut pipe = Pipe::install(alloc, checked)?;
    let mut out = Vec::new(alloc);
    let mut err = Vec::new(alloc);
    for number in 0..bounds.len() {
        let bound = &bounds[number];
        let ran = run_one(alloc, profile, tables, bound, plans, number, selector, pipe)?;
        let Ran { pipe: next, said } = ran;
        add_answer(&mut out, said.out.as_slice())?;
        add_counts(&mut err, said.err.as_slice())?;
        pipe = next;
    }
    Ok(Outcome {
        ending: Ending::Done,
        out: Bytes::from_vec(out),
        err: Bytes::from_vec(err),
    })
}
