//! The texts that a query asks of its table.
ghost use Rattle.std.specs.Prelude.{◌≡◌, ◌<◌, [], ◌∷◌, length, IfOk};

use crate::lists::one;
use crate::predicates::TEXT;
use crate::reading::{cut, table_of};
use ch_asked::rank_texts;
use ch_cells::{Bytes, Kind, Memory};
use ch_pred::{Arg, Bound, BoundPred, Cmp, Literal, Printed, Shape};
use ch_ranks::Ranks;
use ch_tables::Table;
use std::alloc::Global;

/// b <> 'm' AND b LIKE 'q%'
fn filter(alloc: Global) -> Result<BoundPred, Memory> {
    let text = Literal::Text(Bytes::from_slice(alloc, b"m")?);
    let prefix = Bytes::from_slice(alloc, b"q")?;
    let other = BoundPred::Compare(TEXT, Cmp::Ne, Arg::Value(text));
    let begins = BoundPred::Like(TEXT, prefix);
    Ok(BoundPred::And(Vec::from_array(alloc, [other, begins])?))
}

/// SELECT b FROM t WHERE b <> 'm' AND b LIKE 'q%'
fn query(alloc: Global) -> Result<Bound, Memory>
    ensures { IfOk result (λ b. b.tables ≡ 0 ∷ []) }
{
    let tables = one(alloc, 0)?;
    let columns = one(alloc, 1)?;
    let carried = one(alloc, columns)?;
    let kinds = one(alloc, Kind::Text)?;
    let kinds = one(alloc, kinds)?;
    let name = Bytes::from_slice(alloc, b"b")?;
    let header = one(alloc, name)?;
    let printed = one(alloc, Printed::Column(TEXT))?;
    let filter = filter(alloc)?;
    Ok(Bound {
        tables,
        carried,
        kinds,
        header,
        printed,
        filter,
        shape: Shape::Filter,
    })
}

#[tactic(auto, using(ch_asked::proofs::Added::first_there))]
fn dictionary(alloc: Global, query: &Bound, tables: &[Table]) -> Result<Ranks, Memory>
    requires first { query.now.tables ≡ 0 ∷ [] }
    requires some { 0 < length tables.now }
{
    rank_texts(alloc, query, tables)
}

/// The dictionary of the query over this table.
fn asked(alloc: Global, table: Table) -> Result<Ranks, Memory> {
    let tables = one(alloc, table)?;
    let query = query(alloc)?;
    dictionary(alloc, &query, tables.as_slice())
}

/// The ranks of texts in that dictionary.
pub(crate) fn asked_ranks(alloc: Global, said: &str) -> anyhow::Result<String> {
    let (texts, parts) = cut(said, " ");
    let ranks = asked(alloc, table_of(alloc, parts)?)?;
    let size = ranks.size();
    let mut line = format!(in alloc; "{size} ranks")?;
    for text in texts.split(',') {
        let rank = ranks.rank(text.as_bytes());
        line.push_str(format!(in alloc; ", {text} {rank:?}")?.as_str())?;
    }
    line.push('\n')?;
    Ok(line)
}
