ghost use Rattle.std.specs.Prelude.{◌≡◌, ◌≤◌, IfOk, length};
ghost use Rattle.ch_sql.specs.Parsed.{IsParsed};
ghost use Rattle.ch_sql_grammar.specs.Tree.{select_of};
ghost use Rattle.cheetah_inputs.specs.Question.{ReadsQuestion, ReadsSelect, ReadsSums, refused_sum};
ghost use Rattle.ch_bind.specs.Binding.{plain_bound};

use crate::messages::{bind_line, sum_line};
use crate::refusal::Refusal;
use ch_bind::{SumError, bind, check_sums, shapes_of};
use ch_cells::{Bytes, Listed, Memory};
use ch_messages::query_line;
use ch_pred::Bound;
use ch_sql::{Query, read_query, spelled_queries_are_parsed};
use ch_tables::Table;
use std::alloc::Global;

/// The line that refuses a sum of the query's first table.
fn refused_sum(
    alloc: Global,
    bound: &Bound,
    tables: &Listed<Table>,
    error: SumError,
) -> Result<Bytes, Memory>
    ensures { IfOk result (λ line. line ≡ refused_sum (plain_bound bound.now) tables.now error) }
{
    match bound.tables.as_slice().first() {
        Some(number) => match tables.as_slice().get(*number as usize) {
            Some(table) => sum_line(alloc, table.name(), error),
            None => sum_line(alloc, b"", error),
        },
        None => sum_line(alloc, b"", error),
    }
}

/// The bound query, where its sums are taken.
fn summed(alloc: Global, bound: Bound, tables: &Listed<Table>) -> Result<Bound, Refusal>
    ensures { ReadsSums tables.now bound result }
{
    match check_sums(&bound, tables) {
        Ok(()) => Ok(bound),
        Err(error) => Err(Refusal::Line(refused_sum(alloc, &bound, tables, error)?)),
    }
}

/// The query bound to the tables, or why it isn't.
fn bound_in(alloc: Global, query: &Query, tables: &Listed<Table>) -> Result<Bound, Refusal>
    requires few { length tables.now ≤ 64 }
    requires parsed { IsParsed (select_of query.now) }
    ensures { ReadsSelect (select_of query.now) tables.now result }
{
    let shapes = shapes_of(alloc, tables.as_slice())?;
    match bind(alloc, query, &shapes) {
        Ok(bound) => summed(alloc, bound, tables),
        Err(error) => Err(Refusal::Line(bind_line(alloc, error)?)),
    }
}

/// The query that a text spells, bound to the tables, with its sums checked; or why there is none.
pub fn read_question(alloc: Global, text: &[u8], tables: &Listed<Table>) -> Result<Bound, Refusal>
    requires { length tables.now ≤ 64 }
    ensures { ReadsQuestion text.now tables.now result }
{
    spelled_queries_are_parsed();
    match read_query(alloc, text) {
        Ok(query) => bound_in(alloc, &query, tables),
        Err(error) => Err(Refusal::Line(query_line(alloc, error)?)),
    }
}
