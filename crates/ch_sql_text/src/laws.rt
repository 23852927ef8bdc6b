//! What holds of all queries, as a contract of a function that does nothing.
ghost use Rattle.std.specs.Prelude.{List};
ghost use Rattle.std.specs.List.{All};
ghost use Rattle.ch_sql_tokens.specs.declared.token.Token.{Token};
ghost use Rattle.ch_sql_tokens.specs.Spelling.{IsToken};
ghost use Rattle.ch_sql_tokens.specs.Lexed.{IsQueryText};
ghost use Rattle.ch_sql_grammar.specs.Tree.{Select};
ghost use Rattle.ch_sql_limits.specs.Limits.{IsQueryWithin};
ghost use Rattle.ch_sql_limits.specs.Texts.{seen, Spells};
ghost use Rattle.ch_sql_text.specs.Printed.{query_text};

/// A query that tokens of the lexer derive within the limits is spelled again by its own text, unless
/// that is too long for a query.
pub fn printed_queries_are_read_again()
    ensures { (tokens : List Token) (q : Select) → All IsToken tokens
        → IsQueryWithin (seen tokens) q → IsQueryText (query_text q) → Spells (query_text q) q }
{}
