ghost use Rattle.std.specs.Prelude.{◌≡◌, ◌≤◌, All, IfOk, length, map};
ghost use Rattle.ch_bind.specs.Binding.{plain_bound};
ghost use Rattle.cheetah_pack_meaning.specs.Meaning.{OfTables, outcome_of};
ghost use Rattle.cheetah_pack_meaning.specs.Queries.{OfQueries, count_line};
ghost use Rattle.cheetah_pack_run.specs.Running.{AreAskedPlans};
ghost use Rattle.cheetah_pack.specs.Planning.{IsAsked};
ghost use Rattle.cheetah_pack.specs.Reading.{IsRead};

use crate::counting::{count_queries, queries_in};
use crate::plans::{pack_line, plan_all};
use crate::questions::read_questions;
use ch_cells::{Bytes, Memory};
use ch_command::{Ending, Outcome};
use ch_pack::{pack, plans_are_made};
use ch_plan::Planned;
use ch_pred::Bound;
use cheetah_inputs::{Refusal, Shared};
use cheetah_pack_run::run_packed;
use std::alloc::Global;

/// The answers of the queries, one after the other over the one program of their plans; or the limit that this exceeds.
fn answer_planned(
    alloc: Global,
    shared: &Shared,
    bounds: &[Bound],
    plans: &[Planned],
) -> Result<Outcome, Memory>
    requires some { 1 ≤ length bounds.now }
    requires few { length bounds.now ≤ 4 }
    requires asked { All (λ bound. IsAsked shared.now bound) bounds.now }
    requires plans { AreAskedPlans shared.now.profile shared.now.tables bounds.now plans.now }
    ensures { IfOk result (λ outcome. outcome ≡ outcome_of shared.now.profile shared.now.tables (map plain_bound bounds.now)) }
{
    plans_are_made();
    let tables = shared.tables.as_slice();
    match pack(alloc, plans, &shared.profile) {
        Ok(packed) => run_packed(alloc, &shared.profile, tables, bounds, plans, packed),
        Err(error) => {
            let line = pack_line(alloc, error)?;
            Ok(Outcome::refused(alloc, Ending::Rejected, line))
        }
    }
}

/// What the queries come to, each of which is planned alone first.
fn answer_bound(alloc: Global, shared: &Shared, bounds: &[Bound]) -> Result<Outcome, Memory>
    requires some { 1 ≤ length bounds.now }
    requires few { length bounds.now ≤ 4 }
    requires asked { All (λ bound. IsAsked shared.now bound) bounds.now }
    ensures { IfOk result (λ outcome. outcome ≡ outcome_of shared.now.profile shared.now.tables (map plain_bound bounds.now)) }
{
    match plan_all(alloc, shared, bounds) {
        Ok(plans) => answer_planned(alloc, shared, bounds, plans.as_slice()),
        Err(Refusal::Line(line)) => Ok(Outcome::refused(alloc, Ending::Rejected, line)),
        Err(Refusal::Memory) => Err(Memory),
    }
}

/// What the texts of 1 to 4 queries come to.
fn answer_texts(alloc: Global, shared: &Shared, texts: &[&[u8]]) -> Result<Outcome, Memory>
    requires some { 1 ≤ length texts.now }
    requires few { length texts.now ≤ 4 }
    requires read { IsRead shared.now }
    ensures { IfOk result (λ outcome. OfQueries 0 (map (λ text. text.now) texts.now) shared.now.tables (λ qs o. o ≡ outcome_of shared.now.profile shared.now.tables qs) outcome) }
{
    match read_questions(alloc, texts, &shared.tables) {
        Ok(bounds) => answer_bound(alloc, shared, bounds.as_slice()),
        Err(Refusal::Line(line)) => Ok(Outcome::refused(alloc, Ending::Input, line)),
        Err(Refusal::Memory) => Err(Memory),
    }
}

/// How many queries there are.
fn count_line(alloc: Global, count: usize) -> Result<Bytes, Memory>
    ensures { IfOk result (λ said. said ≡ count_line count) }
{
    let said = format!(in alloc; "input: {count} queries\n")?;
    Ok(Bytes::from_vec(said.into_bytes()))
}

/// What a text of queries comes to.
pub(crate) fn answer(alloc: Global, shared: &Shared, text: &[u8]) -> Result<Outcome, Memory>
    requires { IsRead shared.now }
    ensures { IfOk result (λ outcome. OfTables text.now shared.now.profile shared.now.tables outcome) }
{
    let count = count_queries(text);
    if count == 0 || 4 < count {
        let line = count_line(alloc, count)?;
        return Ok(Outcome::refused(alloc, Ending::Input, line));
    }
    let queries = queries_in(alloc, text)?;
    answer_texts(alloc, shared, queries.as_slice())
}
