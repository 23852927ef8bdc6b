ghost use Rattle.std.specs.Prelude.{◌≡◌, ◌++◌, [], ◌∷◌, not, filter, length, map, IfOk, OnOk};
ghost use Rattle.cheetah_pack_meaning.specs.Queries.{queries_of};
ghost use Rattle.cheetah_words.specs.Tables.{is_nil};

use ch_cells::Memory;
use ch_lines::next_line;
use std::alloc::Global;

/// Whether a line is a query: 1 where it is, and else 0.
fn counted(line: &[u8]) -> usize
    ensures { result ≡ length (filter (λ line. not (is_nil line)) (line.now ∷ [])) }
{
    if line.is_empty() { 0 } else { 1 }
}

/// How many queries a text has.
pub(crate) fn count_queries(text: &[u8]) -> usize
    ensures { result ≡ length (queries_of text.now) }
{
    let mut rest = text;
    let mut count: usize = 0;
    while let Some(cut) = next_line(rest) {
        count += counted(cut.first);
        rest = cut.rest;
    }
    count
}

/// Adds a line, where it is a query.
fn add_query<'a>(queries: &mut Vec<&'a [u8]>, line: &'a [u8]) -> Result<(), Memory>
    ensures { OnOk result (map (λ query. query.now) queries.new.items ≡ map (λ query. query.now) queries.old.items ++ filter (λ line. not (is_nil line)) (line.now ∷ [])) }
{
    if !line.is_empty() {
        queries.push(line)?;
    }
    Ok(())
}

/// The queries of a text: its lines that aren't empty.
pub(crate) fn queries_in(alloc: Global, text: &[u8]) -> Result<Vec<&[u8]>, Memory>
    ensures { IfOk result (λ queries. map (λ query. query.now) queries.items ≡ queries_of text.now) }
{
    let mut queries = Vec::new(alloc);
    let mut rest = text;
    while let Some(cut) = next_line(rest) {
        add_query(&mut queries, cut.first)?;
        rest = cut.rest;
    }
    Ok(queries)
}
