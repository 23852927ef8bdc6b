ghost use Rattle.std.specs.Prelude.{◌≡◌, ◌↔◌, List, Ok, Err};
ghost use Rattle.ch_sql_grammar.specs.declared.terminal.Terminal.{Terminal};
ghost use Rattle.ch_sql_grammar.specs.declared.error.ParseError.{ParseError};
ghost use Rattle.ch_sql_grammar.specs.Tree.{Select};
ghost use Rattle.ch_sql_places.specs.Machine.{parse_from, start};
ghost use Rattle.ch_sql_limits.specs.Limits.{IsQueryWithin};

/// The places read exactly the tokens that a derivation within the limits spells, and give its tree.
pub fn derived_within_limits_is_read()
    ensures { (tokens : List Terminal) (tree : Select) → IsQueryWithin tokens tree ↔ (parse_from start 0 tokens ≡ Ok tree) }
{}

/// What is refused is not derived, or each of its derivations exceeds a limit; and all such tokens
/// are refused.
pub fn refused_exceeds_or_is_not_derived()
    ensures refused { (tokens : List Terminal) (e : ParseError) → parse_from start 0 tokens ≡ Err e → (tree : Select) → IsQueryWithin tokens tree → ⊥ }
    ensures not_within { (tokens : List Terminal) → ((tree : Select) → IsQueryWithin tokens tree → ⊥) → (e : ParseError) × (parse_from start 0 tokens ≡ Err e) }
{}
