ghost use Rattle.std.specs.Prelude.{◌≡◌, ◌↔◌, List, Some, Err};
ghost use Rattle.ch_sql_grammar.specs.declared.terminal.Terminal.{Terminal};
ghost use Rattle.ch_sql_grammar.specs.declared.error.ParseError.{ParseError};
ghost use Rattle.ch_sql_grammar.specs.Tree.{Select};
ghost use Rattle.ch_sql_grammar.specs.Grammar.{IsQuery};
ghost use Rattle.ch_sql_places.specs.Machine.{answer, parse_from, start, Place};
ghost use Rattle.ch_sql_places.specs.Completion.{completion};
ghost use Rattle.ch_sql_places.specs.Refusal.{IsRefusal};

/// At each place some fixed tokens make a query of those that led there.
pub fn every_place_is_completed()
    ensures { (place : Place) → (tree : Select) × (answer place (completion place) ≡ Some tree) }
{}

/// The places give exactly what the grammar derives.
pub fn places_give_what_is_derived()
    ensures { (tokens : List Terminal) (tree : Select) → IsQuery tokens tree ↔ (answer start tokens ≡ Some tree) }
{}

/// Tokens derive one tree at most.
pub fn derived_trees_are_equal()
    ensures { (tokens : List Terminal) (a b : Select) → IsQuery tokens a → IsQuery tokens b → a ≡ b }
{}

/// Each refusal of the places is the first that holds, at its token.
pub fn refusals_are_first()
    ensures { (tokens : List Terminal) (e : ParseError) → parse_from start 0 tokens ≡ Err e → IsRefusal tokens e }
{}
