ghost use Rattle.std.specs.Prelude.{◌≡◌, ◌<◌, IsSome, IsTrue, length, option_map};
ghost use Rattle.ch_sql_grammar.specs.Tokens.{cmp_in, marked, name_at, cmp_at, text_at};

use ch_cells::Bytes;
use ch_pred::Cmp;
use ch_sql_grammar::{Mark, Terminal, is_mark, name_of};

/// Whether the token is this mark.
#[tactic(auto, unfolding(ch_sql_grammar::specs::Tokens::marked))]
pub fn mark_at(tokens: &[Terminal], at: usize, mark: Mark) -> bool
    ensures value { result ≡ marked mark tokens.now at }
    ensures within { IsTrue result → at < length tokens.now }
{
    match tokens.get(at) {
        Some(token) => is_mark(mark, token),
        None => false,
    }
}

/// The name that the token is.
#[tactic(auto, unfolding(ch_sql_grammar::specs::Tokens::name_at))]
pub fn name_there(tokens: &[Terminal], at: usize) -> Option<&Bytes>
    ensures value { option_map (λ n. n.now) result ≡ name_at tokens.now at }
    ensures within { IsSome result → at < length tokens.now }
{
    match tokens.get(at) {
        Some(token) => name_of(token),
        None => None,
    }
}

fn cmp_of(token: &Terminal) -> Option<Cmp>
    ensures { result ≡ cmp_in token.now }
{
    match token {
        Terminal::Mark(Mark::Eq) => Some(Cmp::Eq),
        Terminal::Mark(Mark::Ne) => Some(Cmp::Ne),
        Terminal::Mark(Mark::Lt) => Some(Cmp::Lt),
        Terminal::Mark(Mark::Le) => Some(Cmp::Le),
        Terminal::Mark(Mark::Gt) => Some(Cmp::Gt),
        Terminal::Mark(Mark::Ge) => Some(Cmp::Ge),
        _ => None,
    }
}

/// The comparison that the token is.
#[tactic(auto, unfolding(ch_sql_grammar::specs::Tokens::cmp_at))]
pub fn cmp_there(tokens: &[Terminal], at: usize) -> Option<Cmp>
    ensures value { result ≡ cmp_at tokens.now at }
    ensures within { IsSome result → at < length tokens.now }
{
    match tokens.get(at) {
        Some(token) => cmp_of(token),
        None => None,
    }
}

/// The text that the token is.
#[tactic(auto, unfolding(ch_sql_grammar::specs::Tokens::text_at))]
pub fn text_there(tokens: &[Terminal], at: usize) -> Option<&Bytes>
    ensures value { option_map (λ n. n.now) result ≡ text_at tokens.now at }
    ensures within { IsSome result → at < length tokens.now }
{
    match tokens.get(at) {
        Some(Terminal::Text(text)) => Some(text),
        _ => None,
    }
}
