ghost use Rattle.std.specs.Prelude.{◌≡◌, IfErr, IfOk, Ok};
ghost use Rattle.ch_sql_grammar.specs.Tree.{Select, select_of};
ghost use Rattle.ch_sql_places.specs.Refusal.{IsRefusal};
ghost use Rattle.ch_sql_limits.specs.Limits.{IsQueryWithin};
ghost use Rattle.ch_sql_limits.specs.Texts.{seen};
ghost use Rattle.ch_sql.specs.Parsed.{Parses};

use ch_cells::Listed;
use ch_sql_grammar::{ParseError, Query, terminals_of};
use ch_sql_parser::query_of;
use ch_sql_tokens::Token;
use std::alloc::Global;

/// The query that the tokens are, with or without a semicolon.
pub fn parse(alloc: Global, tokens: &Listed<Token>) -> Result<Query, ParseError>
    // Read is the one query that the tokens derive within the limits.
    ensures found { IfOk result (λ q. IsQueryWithin (seen tokens.now) (select_of q)) }
    // The first token at which a refusal holds decides, and there `Syntax` goes before the others.
    ensures refused { IfErr result (IsRefusal (seen tokens.now)) }
    // What they derive within the limits is read, unless memory runs out.
    ensures only { (tree : Select) → IsQueryWithin (seen tokens.now) tree → Parses tree result }
{
    let terminals = terminals_of(alloc, tokens.as_slice())?;
    query_of(alloc, terminals.as_slice())
}
