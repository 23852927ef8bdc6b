//! What holds of all texts, as contracts of functions that do nothing.
ghost use Rattle.std.specs.Prelude.{◌≡◌, ◌≢◌, ◌≤◌, ◌↔◌, ◌⊎◌, ℕ, List, Ok, Err, length};
ghost use Rattle.std.specs.List.{All};
ghost use Rattle.ch_sql_tokens.specs.declared.token.Token.{Token};
ghost use Rattle.ch_sql_tokens.specs.declared.error.LexError.{LexError};
ghost use Rattle.ch_sql_tokens.specs.declared.error.LexError.TheVariants.{Memory};
ghost use Rattle.ch_sql_tokens.specs.Lexed.{IsLexed, IsLexError, IsQueryText};
ghost use Rattle.ch_sql_tokens.specs.Scan.{lex_of};
ghost use Rattle.ch_sql_tokens.specs.Spelling.{IsToken};

/// The scan of a query text gives exactly the refusal that holds of it. One refusal at most holds of
/// a text of any length.
pub fn lex_refusals_are_exact()
    ensures exact { (text : List ℕ) (e : LexError) → e ≢ Memory → IsQueryText text → IsLexError text e ↔ (lex_of text ≡ Err e) }
    ensures one { (text : List ℕ) (a b : LexError) → a ≢ Memory → b ≢ Memory → IsLexError text a → IsLexError text b → a ≡ b }
{}

/// The scan gives exactly the tokens that a query text stands for, which are one list. Each text
/// stands for tokens, or a refusal holds of it, and never both.
pub fn lexed_or_refused()
    ensures exact { (text : List ℕ) (tokens : List Token) → IsQueryText text → IsLexed text tokens ↔ (lex_of text ≡ Ok tokens) }
    ensures one { (text : List ℕ) (a b : List Token) → IsLexed text a → IsLexed text b → a ≡ b }
    ensures either { (text : List ℕ) → ((tokens : List Token) × IsQueryText text × IsLexed text tokens) ⊎ ((e : LexError) × (e ≢ Memory) × IsLexError text e) }
    ensures not_both { (text : List ℕ) (tokens : List Token) (e : LexError) → e ≢ Memory → IsQueryText text → IsLexed text tokens → IsLexError text e → ⊥ }
{}

/// The tokens of a text are tokens as the lexer makes them, and no more than the text's bytes.
pub fn lexed_tokens_are_tokens()
    ensures tokens { (text : List ℕ) (tokens : List Token) → IsLexed text tokens → All IsToken tokens }
    ensures few { (text : List ℕ) (tokens : List Token) → IsLexed text tokens → length tokens ≤ length text }
{}
