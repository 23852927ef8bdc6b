//! What holds of all queries, as contracts of functions that do nothing.
ghost use Rattle.std.specs.Prelude.{ℕ, ◌≡◌, ◌≢◌, ◌≤◌, ◌⊎◌, List, length};
ghost use Rattle.ch_sql_tokens.specs.declared.scanner.TheConstants.{MAX_QUERY_BYTES};
ghost use Rattle.ch_sql_grammar.specs.declared.terminal.Terminal.{Terminal};
ghost use Rattle.ch_sql_grammar.specs.Tree.{Select};
ghost use Rattle.ch_sql_grammar.specs.Grammar.{IsQuery};
ghost use Rattle.ch_sql_limits.specs.Texts.{Spells};
ghost use Rattle.ch_sql.specs.Columns.{columns_of};
ghost use Rattle.ch_sql.specs.Formed.{IsFormed};
ghost use Rattle.ch_sql.specs.Parsed.{IsParsed};
ghost use Rattle.ch_sql.specs.Reading.{IsQueryError};
ghost use Rattle.ch_sql.specs.declared.read.QueryError.{QueryError};
ghost use Rattle.ch_sql.specs.declared.read.QueryError.TheVariants.{Memory};

/// Each text spells one query, or one refusal holds of it, and never both.
pub fn texts_are_queries_or_refused()
    ensures either { (text : List ℕ) → ((q : Select) × Spells text q) ⊎ ((e : QueryError) × (e ≢ Memory) × IsQueryError text e) }
    ensures one_query { (text : List ℕ) (a b : Select) → Spells text a → Spells text b → a ≡ b }
    ensures one_refusal { (text : List ℕ) (a b : QueryError) → a ≢ Memory → b ≢ Memory → IsQueryError text a → IsQueryError text b → a ≡ b }
    ensures not_both { (text : List ℕ) (q : Select) (e : QueryError) → e ≢ Memory → Spells text q → IsQueryError text e → ⊥ }
{}

/// The query of a text is one that `parse` gives for no more tokens than a text may have bytes.
pub fn spelled_queries_are_parsed()
    ensures { (text : List ℕ) (q : Select) → Spells text q → IsParsed q }
{}

/// Each query that tokens derive is formed, and has no more column references than they are.
pub fn derived_queries_are_formed()
    ensures formed { (tokens : List Terminal) (q : Select) → IsQuery tokens q → IsFormed q }
    ensures columns { (tokens : List Terminal) (q : Select) → IsQuery tokens q → length (columns_of q) ≤ length tokens }
{}

/// The same of a query that `parse` gives.
pub fn parsed_queries_are_formed()
    ensures formed { (q : Select) → IsParsed q → IsFormed q }
    ensures columns { (q : Select) → IsParsed q → length (columns_of q) ≤ MAX_QUERY_BYTES }
{}
