ghost use Rattle.std.specs.Prelude.{◌≡◌, ◌≤◌, length, map, IfOk};
ghost use Rattle.cheetah_pack_meaning.specs.Queries.{numbered};
ghost use Rattle.cheetah_pack.specs.Reading.{ReadsNumbered, ReadsQuestions};

use ch_cells::{Bytes, Listed, Memory};
use ch_pred::Bound;
use ch_tables::Table;
use cheetah_inputs::{Refusal, read_question};
use std::alloc::Global;

/// A line that is said of a query, with its number.
pub(crate) fn number_line(alloc: Global, number: usize, line: &[u8]) -> Result<Bytes, Memory>
    ensures { IfOk result (λ said. said ≡ numbered number line.now) }
{
    let head = format!(in alloc; "query {number}: ")?;
    let mut said = head.into_bytes();
    said.extend_from_slice(line)?;
    Ok(Bytes::from_vec(said))
}

/// The query that a text spells, or the line that refuses it, with its number.
fn read_numbered(
    alloc: Global,
    number: usize,
    text: &[u8],
    tables: &Listed<Table>,
) -> Result<Bound, Refusal>
    requires { length tables.now ≤ 64 }
    ensures { ReadsNumbered number text.now tables.now result }
{
    match read_question(alloc, text, tables) {
        Ok(bound) => Ok(bound),
        Err(Refusal::Line(line)) => {
            Err(Refusal::Line(number_line(alloc, number, line.as_slice())?))
        }
        Err(Refusal::Memory) => Err(Refusal::Memory),
    }
}

/// The queries of these texts, bound to the tables in turn, or the line that refuses the first that is none.
pub(crate) fn read_questions(
    alloc: Global,
    texts: &[&[u8]],
    tables: &Listed<Table>,
) -> Result<Listed<Bound>, Refusal>
    requires { length tables.now ≤ 64 }
    ensures { ReadsQuestions (map (λ text. text.now) texts.now) tables.now result }
{
    let mut bounds = Listed::new(alloc);
    for number in 0..texts.len() {
        match read_numbered(alloc, number, texts[number], tables) {
            Ok(bound) => bounds.push(bound)?,
            Err(why) => return Err(why),
        }
    }
    Ok(bounds)
}
