//! Query texts, and the queries that they are.
ghost use Rattle.std.specs.Prelude.{IfOk};
ghost use Rattle.ch_sql.specs.Parsed.{IsParsed};
ghost use Rattle.ch_sql_grammar.specs.Tree.{select_of};

use ch_cells::{Bytes, Listed, Memory};
use ch_sql::{
    ColumnRef, Item, Pred, Query, QueryError, Source, Tail, print, read_query,
    spelled_queries_are_parsed,
};
use std::alloc::Global;
use std::str;

pub(crate) fn query_of(alloc: Global, text: &[u8]) -> Result<Query, QueryError>
    ensures { IfOk result (λ q. IsParsed (select_of q)) }
{
    spelled_queries_are_parsed();
    read_query(alloc, text)
}

pub(crate) fn string_of(alloc: Global, text: &Bytes) -> anyhow::Result<String> {
    let text = format!(in alloc; "{}", str::from_utf8(text.as_slice())?)?;
    Ok(text)
}

/// The text of the query that a text is, and whether it is read again as that query.
fn printed(alloc: Global, text: &[u8]) -> anyhow::Result<(Bytes, bool)> {
    let query = read_query(alloc, text)?;
    let text = print(alloc, &query)?;
    let again = read_query(alloc, text.as_slice())?;
    let same = again == query;
    drop((again, query));
    Ok((text, same))
}

/// The text of the query that a text is, or why it is none.
pub(crate) fn query_text(alloc: Global, text: &[u8]) -> anyhow::Result<String> {
    match printed(alloc, text) {
        Ok((text, true)) => string_of(alloc, &text),
        Ok((_, false)) => Ok(String::from_str(alloc, "another query when it is read again")?),
        Err(error) => Ok(format!(in alloc; "{error}")?),
    }
}

fn column(alloc: Global, name: &[u8]) -> Result<ColumnRef, Memory> {
    let name = Bytes::from_slice(alloc, name)?;
    Ok(ColumnRef { table: None, name })
}

/// `name LIKE 'prefix%'`.
fn like(alloc: Global, name: &[u8], prefix: &[u8]) -> Result<Pred, Memory> {
    let prefix = Bytes::from_slice(alloc, prefix)?;
    Ok(Pred::Like(column(alloc, name)?, prefix))
}

/// The text of `SELECT * FROM t` with the filter.
fn filtered(alloc: Global, name: &[u8], prefix: &[u8]) -> Result<Bytes, Memory> {
    let mut items = Listed::new(alloc);
    items.push(Item::Star)?;
    let table = Bytes::from_slice(alloc, b"t")?;
    let filter = like(alloc, name, prefix)?;
    let query = Query {
        distinct: false,
        items,
        source: Source::One(table),
        filter: Some(filter),
        tail: Tail::Nothing,
    };
    print(alloc, &query)
}

/// The text with the filter of `NAME/PREFIX`.
pub(crate) fn like_text(alloc: Global, said: &str) -> anyhow::Result<String> {
    let (name, prefix) = said.split_once('/').unwrap_or((said, ""));
    let text = filtered(alloc, name.as_bytes(), prefix.as_bytes())?;
    string_of(alloc, &text)
}
