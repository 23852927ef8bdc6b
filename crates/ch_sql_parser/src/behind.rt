ghost use Rattle.std.specs.Prelude.{◌≡◌, Option, Ok, option_map};
ghost use Rattle.ch_sql_grammar.specs.declared.head.Head.{Head};
ghost use Rattle.ch_sql_grammar.specs.Tree.{Plain, plain_of};
ghost use Rattle.ch_sql_places.specs.Machine.{Tailing, is_semi, selected, takes_tail};
ghost use Rattle.ch_sql_places.specs.Parsing.{parse_at, Moves};
ghost use Rattle.ch_sql_parser.specs.Behind.{behind_head};

use crate::descent::{conj, pred};
use crate::tail_steps::{tail_end, tail_step};
use crate::token_at::mark_at;
use ch_sql_grammar::{Head, Mark, ParseError, Pred, Source, Tail, TailPlace, Terminal};
use std::alloc::Global;

fn is_semi_join(source: &Source) -> bool
    ensures { result ≡ is_semi source.now }
{
    match source {
        Source::Semi { .. } => true,
        _ => false,
    }
}

/// The filter behind a head, if one comes, and the number of the token behind it.
pub fn filter(
    alloc: Global,
    tokens: &[Terminal],
    head: &Head,
    at: usize,
) -> Result<(Option<Pred>, usize), ParseError>
    ensures { Moves (behind_head tokens.now head.now at) (λ r. parse_at tokens.now (Tailing head.now (option_map plain_of r.0) (TailPlace.Start (takes_tail head.now))) r.1) result }
{
    if is_semi_join(&head.source) {
        if !mark_at(tokens, at, Mark::And) {
            return Ok((None, at));
        }
        let (filter, end) = conj(alloc, tokens, at + 1, 0)?;
        return Ok((Some(filter), end));
    }
    if !mark_at(tokens, at, Mark::Where) {
        return Ok((None, at));
    }
    let (filter, end) = pred(alloc, tokens, at + 1, 0)?;
    Ok((Some(filter), end))
}

/// The tail that the tokens from `at` on are.
pub fn tail_from(
    alloc: Global,
    tokens: &[Terminal],
    from: TailPlace,
    at: usize,
) -> Result<Tail, ParseError>
    ensures { (h : Head) (filter : Option Plain) → Moves (parse_at tokens.now (Tailing h filter from) at) (λ t. Ok (selected h filter t)) result }
{
    let mut place = from;
    let mut next = at;
    while let Some(token) = tokens.get(next) {
        match tail_step(alloc, place, token)? {
            Some(behind) => place = behind,
            None => return Err(ParseError::Syntax { at: next }),
        }
        next += 1;
    }
    match tail_end(place)? {
        Some(tail) => Ok(tail),
        None => Err(ParseError::Syntax { at: next }),
    }
}
