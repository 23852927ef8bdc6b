ghost use Rattle.std.specs.Prelude.{◌≡◌, ◌≤◌, [], ◌∷◌};
ghost use Rattle.ch_sql_limits.specs.Limits.{neg_depth, FitsLimits};
ghost use Rattle.std.specs.Prelude.{◌++◌, pos};
ghost use Rattle.ch_sql_grammar.specs.declared.terminal.Mark.TheVariants.{Not, LeftParen, Star};
ghost use Rattle.ch_sql_grammar.specs.declared.terminal.Terminal.TheVariants as terminal;
ghost use Rattle.ch_sql_grammar.specs.declared.error.ParseError.TheVariants.{Syntax, TooDeep, InTooLong, BadLike};
ghost use Rattle.ch_sql_places.specs.Refusal.{IsRefusal};
ghost use Rattle.ch_sql_limits.specs.Worked.{like_text, zeros_and_one, negated, mixed, all_where, where_these, times, in_turn, behind_sixteen, like_tokens};

/// `NOT`, its parentheses and the `NOT` inside are three.
pub fn depths_are_counted()
    ensures mixed { neg_depth mixed ≡ 3 }
    ensures atom { neg_depth (zeros_and_one 15) ≡ 0 }
    ensures negated { neg_depth (negated 30 mixed) ≡ 33 }
{}

/// Up to 32 `NOT` and parentheses inside each other, up to 16 literals, and a text that ends in its
/// only `%`.
pub fn limits_are_kept()
    ensures deep { FitsLimits (all_where (negated 29 mixed)) }
    ensures too_deep { FitsLimits (all_where (negated 30 mixed)) → ⊥ }
    ensures listed { FitsLimits (all_where (zeros_and_one 15)) }
    ensures too_long { FitsLimits (all_where (zeros_and_one 16)) → ⊥ }
    ensures like { FitsLimits (all_where (like_text (120 ∷ 37 ∷ []))) }
    ensures every { FitsLimits (all_where (like_text (37 ∷ []))) }
    ensures two_marks { FitsLimits (all_where (like_text (37 ∷ 37 ∷ []))) → ⊥ }
    ensures underscore { FitsLimits (all_where (like_text (95 ∷ 37 ∷ []))) → ⊥ }
    ensures no_mark { FitsLimits (all_where (like_text (120 ∷ []))) → ⊥ }
    ensures empty { FitsLimits (all_where (like_text [])) → ⊥ }
{}

/// The 33rd NOT, the 33rd parenthesis, the 33rd of both, the 17th literal and texts that are no
/// patterns; a name or a sign in their place is `Syntax`.
pub fn refusals_are_worked()
    ensures nots { IsRefusal (where_these (times 33 Not)) (TooDeep 37) }
    ensures parentheses { IsRefusal (where_these (times 33 LeftParen)) (TooDeep 37) }
    ensures in_turn { IsRefusal (where_these (in_turn 17)) (TooDeep 37) }
    ensures no_neg { IsRefusal (where_these (in_turn 16 ++ (terminal.Mark Star ∷ []))) (Syntax 37) }
    ensures seventeen { IsRefusal (where_these (behind_sixteen (terminal.Number (pos 0)))) (InTooLong 40) }
    ensures no_literal { IsRefusal (where_these (behind_sixteen (terminal.Name (97 ∷ [])))) (Syntax 40) }
    ensures no_percent { IsRefusal (where_these (like_tokens (120 ∷ []))) (BadLike 7) }
    ensures nothing { IsRefusal (where_these (like_tokens [])) (BadLike 7) }
    ensures two_percents { IsRefusal (where_these (like_tokens (37 ∷ 37 ∷ []))) (BadLike 7) }
    ensures underscore { IsRefusal (where_these (like_tokens (95 ∷ 37 ∷ []))) (BadLike 7) }
{}
