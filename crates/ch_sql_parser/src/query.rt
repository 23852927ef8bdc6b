ghost use Rattle.std.specs.Prelude.{Ok};
ghost use Rattle.ch_sql_grammar.specs.Tree.{select_of};
ghost use Rattle.ch_sql_places.specs.Machine.{start};
ghost use Rattle.ch_sql_places.specs.Parsing.{parse_at, Moves};

use crate::behind::{filter, tail_from};
use crate::heads::{head_from, may_end_in_tail, semi_join};
use ch_sql_grammar::{HeadPlace, ParseError, Query, TailPlace, Terminal};
use std::alloc::Global;

/// The query that the tokens are.
pub fn query_of(alloc: Global, tokens: &[Terminal]) -> Result<Query, ParseError>
    ensures { Moves (parse_at tokens.now start 0) (λ q. Ok (select_of q)) result }
{
    let (first, next) = head_from(alloc, tokens, HeadPlace::Start, 0)?;
    let (head, behind) = semi_join(alloc, tokens, first, next)?;
    let (filter, end) = filter(alloc, tokens, &head, behind)?;
    let tail = tail_from(alloc, tokens, TailPlace::Start(may_end_in_tail(&head)), end)?;
    Ok(Query {
        distinct: head.distinct,
        items: head.items,
        source: head.source,
        filter,
        tail,
    })
}
