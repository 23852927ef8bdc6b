ghost use Rattle.std.specs.Prelude.{◌≡◌, ◌≢◌, ◌↔◌, ◌⊎◌, List, Err};
ghost use Rattle.ch_sql_grammar.specs.declared.terminal.Terminal.{Terminal};
ghost use Rattle.ch_sql_grammar.specs.declared.error.ParseError.{ParseError};
ghost use Rattle.ch_sql_grammar.specs.declared.error.ParseError.TheVariants.{Memory};
ghost use Rattle.ch_sql_grammar.specs.Tree.{Select};
ghost use Rattle.ch_sql_places.specs.Machine.{parse_from, start};
ghost use Rattle.ch_sql_places.specs.Refusal.{IsRefusal};
ghost use Rattle.ch_sql_limits.specs.Limits.{IsQueryWithin};

/// The places give exactly the refusal that holds of the tokens, which is one at most.
pub fn parse_refusals_are_exact()
    ensures exact { (tokens : List Terminal) (e : ParseError) → e ≢ Memory → IsRefusal tokens e ↔ (parse_from start 0 tokens ≡ Err e) }
    ensures one { (tokens : List Terminal) (a b : ParseError) → a ≢ Memory → b ≢ Memory → IsRefusal tokens a → IsRefusal tokens b → a ≡ b }
{}

/// Each list of tokens is derived within the limits, or a refusal holds of it, and never both.
pub fn refused_or_read()
    ensures either { (tokens : List Terminal) → ((tree : Select) × IsQueryWithin tokens tree) ⊎ ((e : ParseError) × (e ≢ Memory) × IsRefusal tokens e) }
    ensures not_both { (tokens : List Terminal) (e : ParseError) (tree : Select) → e ≢ Memory → IsRefusal tokens e → IsQueryWithin tokens tree → ⊥ }
{}
