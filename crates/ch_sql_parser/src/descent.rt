ghost use Rattle.std.specs.Prelude.{ℕ, ◌≡◌, ◌<◌, ◌≤◌, ◌∷◌, [], ◌++◌, ◌==◌, ◌&&◌, not, IfOk, IsTrue, length, List, map, true};
ghost use Rattle.std.specs.List.{list_all};
ghost use Rattle.ch_sql_places.specs.Machine.{Taker, First, Around, Level, Member, took, have, depth_of, level_depth, takes_or, Name, Compared, Low, In, Listed, LikeText, Want, Conjs, Closed, is_pattern};
ghost use Rattle.ch_sql_places.specs.Parsing.{parse_at, Moves, LiteralAt, behind_list};
ghost use Rattle.ch_sql_grammar.specs.Tree.{Plain, Not, plain_of, any_of, all_of};
ghost use Rattle.ch_sql_grammar.specs.declared.query.ColumnRef.{ColumnRef};
ghost use Rattle.ch_sql_grammar.specs.Tokens.{literal_in};

use crate::token_at::{cmp_there, mark_at, name_there, text_there};
use ch_cells::{Bytes, Memory};
use ch_pred::{Cmp, Literal};
use ch_sql_grammar::{ColumnRef, MAX_DEPTH, MAX_LITERALS, Mark, ParseError, Pred, Side, Terminal};
use std::alloc::{AllocError, Global};

fn copy_literal(alloc: Global, token: &Terminal) -> Result<Option<Literal>, Memory>
    ensures { IfOk result (λ v. v ≡ literal_in token.now) }
{
    match token {
        Terminal::Number(n) => Ok(Some(Literal::Number(*n))),
        Terminal::Text(text) => Ok(Some(Literal::Text(Bytes::from_slice(alloc, text.as_slice())?))),
        _ => Ok(None),
    }
}

/// The literal that comes.
#[tactic(auto, unfolding(ch_sql_grammar::specs::Tokens::literal_at))]
fn literal(alloc: Global, tokens: &[Terminal], at: usize) -> Result<(Literal, usize), ParseError>
    ensures { LiteralAt tokens.now at result }
{
    match tokens.get(at) {
        Some(token) => match copy_literal(alloc, token)? {
            Some(value) => Ok((value, at + 1)),
            None => Err(ParseError::Syntax { at }),
        },
        None => Err(ParseError::Syntax { at }),
    }
}

/// The column behind its first name.
#[tactic(auto, using(crate::proofs::Rules::machine))]
fn column_after(
    alloc: Global,
    tokens: &[Terminal],
    first: &Bytes,
    at: usize,
) -> Result<(ColumnRef, usize), ParseError>
    ensures moves { (taker : Taker) → Moves (parse_at tokens.now (Name taker first.now) at) (λ r. parse_at tokens.now (took taker r.0) r.1) result }
    ensures onward { IfOk result (λ r. at ≤ r.1) }
{
    let first = Bytes::from_slice(alloc, first.as_slice())?;
    if !mark_at(tokens, at, Mark::Dot) {
        return Ok((
            ColumnRef {
                table: None,
                name: first,
            },
            at,
        ));
    }
    let Some(name) = name_there(tokens, at + 1) else {
        return Err(ParseError::Syntax { at: at + 1 });
    };
    let name = Bytes::from_slice(alloc, name.as_slice())?;
    Ok((
        ColumnRef {
            table: Some(first),
            name,
        },
        at + 2,
    ))
}

/// BETWEEN's two literals.
#[tactic(auto, using(crate::proofs::Rules::machine))]
fn between(
    alloc: Global,
    tokens: &[Terminal],
    col: ColumnRef,
    at: usize,
) -> Result<(Pred, usize), ParseError>
    ensures moves { (around : Around) → Moves (parse_at tokens.now (Low around col) at) (λ r. parse_at tokens.now (have (plain_of r.0) around) r.1) result }
    ensures onward { IfOk result (λ r. at ≤ r.1) }
{
    let (low, next) = literal(alloc, tokens, at)?;
    if !mark_at(tokens, next, Mark::And) {
        return Err(ParseError::Syntax { at: next });
    }
    let (high, end) = literal(alloc, tokens, next + 1)?;
    Ok((Pred::Between(col, low, high), end))
}

/// The side of a comparison.
#[tactic(auto, using(crate::proofs::Rules::machine))]
fn compared(
    alloc: Global,
    tokens: &[Terminal],
    col: ColumnRef,
    cmp: Cmp,
    at: usize,
) -> Result<(Pred, usize), ParseError>
    ensures moves { (around : Around) → Moves (parse_at tokens.now (Compared around col cmp) at) (λ r. parse_at tokens.now (have (plain_of r.0) around) r.1) result }
    ensures onward { IfOk result (λ r. at ≤ r.1) }
{
    if let Some(first) = name_there(tokens, at) {
        let (right, end) = column_after(alloc, tokens, first, at + 1)?;
        return Ok((Pred::Compare(col, cmp, Side::Column(right)), end));
    }
    let (value, end) = literal(alloc, tokens, at)?;
    Ok((Pred::Compare(col, cmp, Side::Value(value)), end))
}

/// IN's list.
#[tactic(auto, using(crate::proofs::Rules::machine))]
fn within(
    alloc: Global,
    tokens: &[Terminal],
    col: ColumnRef,
    at: usize,
) -> Result<(Pred, usize), ParseError>
    ensures moves { (around : Around) → Moves (parse_at tokens.now (In around col) at) (λ r. parse_at tokens.now (have (plain_of r.0) around) r.1) result }
    ensures onward { IfOk result (λ r. at ≤ r.1) }
{
    if !mark_at(tokens, at, Mark::LeftParen) {
        return Err(ParseError::Syntax { at });
    }
    let (literals, end) = listed(alloc, tokens, at + 1)?;
    if !mark_at(tokens, end, Mark::RightParen) {
        return Err(ParseError::Syntax { at: end });
    }
    Ok((Pred::Within(col, literals), end + 1))
}

/// The literals up to one that no comma follows.
#[tactic(auto, using(crate::proofs::Rules::machine))]
fn listed(
    alloc: Global,
    tokens: &[Terminal],
    at: usize,
) -> Result<(Vec<Literal>, usize), ParseError>
    ensures moves { (around : Around) (col : ColumnRef) → Moves (parse_at tokens.now (Listed around col []) at) (λ r. behind_list tokens.now around col r.0.items r.1) result }
    ensures onward { IfOk result (λ r. at ≤ r.1) }
{
    let mut literals = Vec::new(alloc);
    let mut place = at;
    loop {
        let (value, next) = literal(alloc, tokens, place)?;
        if literals.len() == MAX_LITERALS {
            return Err(ParseError::InTooLong { at: place });
        }
        literals.push(value)?;
        if !mark_at(tokens, next, Mark::Comma) {
            return Ok((literals, next));
        }
        place = next + 1;
    }
}

/// LIKE's text.
#[tactic(auto, using(crate::proofs::Rules::machine))]
fn like(
    alloc: Global,
    tokens: &[Terminal],
    col: ColumnRef,
    at: usize,
) -> Result<(Pred, usize), ParseError>
    ensures moves { (around : Around) → Moves (parse_at tokens.now (LikeText around col) at) (λ r. parse_at tokens.now (have (plain_of r.0) around) r.1) result }
    ensures onward { IfOk result (λ r. at ≤ r.1) }
{
    let Some(text) = text_there(tokens, at) else {
        return Err(ParseError::Syntax { at });
    };
    let bytes = text.as_slice();
    if !ends_in_percent(bytes) {
        return Err(ParseError::BadLike { at });
    }
    Ok((
        Pred::Like(col, Bytes::from_slice(alloc, &bytes[..bytes.len() - 1])?),
        at + 1,
    ))
}

/// Whether no byte is `%` or `_`.
fn is_plain(text: &[u8]) -> bool
    ensures { result ≡ list_all (λ b. not (b == 37) && not (b == 95)) text.now }
{
    text.iter().all(|b| *b != b'%' && *b != b'_')
}

/// Whether a text ends in `%` and has no other `%` and no `_`.
fn ends_in_percent(text: &[u8]) -> bool
    ensures value { result ≡ is_pattern text.now }
    ensures some { IsTrue result → 0 < length text.now }
{
    if text.is_empty() {
        return false;
    }
    let end = text.len() - 1;
    is_plain(&text[..end]) && text[end] == b'%'
}

/// NOT around a predicate.
fn negation(alloc: Global, inner: Pred) -> Result<Pred, AllocError>
    ensures { IfOk result (λ p. plain_of p ≡ Not (plain_of inner)) }
{
    Ok(Pred::Not(Box::new(alloc, inner)?))
}

/// An atom behind its first name.
#[tactic(auto, using(crate::proofs::Rules::machine))]
fn atom(
    alloc: Global,
    tokens: &[Terminal],
    first: &Bytes,
    at: usize,
) -> Result<(Pred, usize), ParseError>
    ensures moves { (around : Around) → Moves (parse_at tokens.now (Name (First around) first.now) at) (λ r. parse_at tokens.now (have (plain_of r.0) around) r.1) result }
    ensures onward { IfOk result (λ r. at ≤ r.1) }
{
    let (col, next) = column_after(alloc, tokens, first, at)?;
    if let Some(cmp) = cmp_there(tokens, next) {
        return compared(alloc, tokens, col, cmp, next + 1);
    }
    if mark_at(tokens, next, Mark::Between) {
        return between(alloc, tokens, col, next + 1);
    }
    if mark_at(tokens, next, Mark::In) {
        return within(alloc, tokens, col, next + 1);
    }
    if mark_at(tokens, next, Mark::Like) {
        return like(alloc, tokens, col, next + 1);
    }
    Err(ParseError::Syntax { at: next })
}

/// The members of an OR, where one member stands for itself.
fn any(parts: Vec<Pred>) -> Pred
    ensures { plain_of result ≡ any_of (map plain_of parts.items) }
{
    let mut conjs = parts;
    if conjs.len() == 1 {
        if let Some(only) = conjs.pop() {
            return only;
        }
    }
    Pred::Or(conjs)
}

/// The members of an AND, where one member stands for itself.
fn all(parts: Vec<Pred>) -> Pred
    ensures { plain_of result ≡ all_of (map plain_of parts.items) }
{
    let mut negs = parts;
    if negs.len() == 1 {
        if let Some(only) = negs.pop() {
            return only;
        }
    }
    Pred::And(negs)
}

/// `conj {OR conj}`, where `depth` NOT and parentheses are open.
#[cycle(parsing)]
#[tactic(auto, using(crate::proofs::Rules::machine))]
pub fn pred(
    alloc: Global,
    tokens: &[Terminal],
    at: usize,
    depth: u32,
) -> Result<(Pred, usize), ParseError>
    requires { depth ≤ MAX_DEPTH }
    ensures moves { (level : Level) → takes_or level ≡ true → level_depth level ≡ depth → Moves (parse_at tokens.now (Want (Member [] [] level)) at) (λ r. parse_at tokens.now (Closed (plain_of r.0) level) r.1) result }
    ensures onward { IfOk result (λ r. at < r.1) }
{
    let (first, mut place) = conj(alloc, tokens, at, depth)?;
    let mut conjs = Vec::new(alloc);
    conjs.push(first)?;
    while mark_at(tokens, place, Mark::Or) {
        let (next, end) = conj(alloc, tokens, place + 1, depth)?;
        conjs.push(next)?;
        place = end;
    }
    Ok((any(conjs), place))
}

/// `neg {AND neg}`.
#[cycle(parsing)]
#[tactic(auto, using(crate::proofs::Rules::machine))]
pub fn conj(
    alloc: Global,
    tokens: &[Terminal],
    at: usize,
    depth: u32,
) -> Result<(Pred, usize), ParseError>
    requires { depth ≤ MAX_DEPTH }
    ensures moves { (conjs : List Plain) (level : Level) → level_depth level ≡ depth → Moves (parse_at tokens.now (Want (Member conjs [] level)) at) (λ r. parse_at tokens.now (Conjs (conjs ++ (plain_of r.0 ∷ [])) level) r.1) result }
    ensures onward { IfOk result (λ r. at < r.1) }
{
    let (first, mut place) = neg(alloc, tokens, at, depth)?;
    let mut negs = Vec::new(alloc);
    negs.push(first)?;
    while mark_at(tokens, place, Mark::And) {
        let (next, end) = neg(alloc, tokens, place + 1, depth)?;
        negs.push(next)?;
        place = end;
    }
    Ok((all(negs), place))
}

/// `NOT neg | "(" pred ")" | atom`.
#[cycle(parsing)]
#[tactic(auto, using(crate::proofs::Rules::machine))]
fn neg(
    alloc: Global,
    tokens: &[Terminal],
    at: usize,
    depth: u32,
) -> Result<(Pred, usize), ParseError>
    requires { depth ≤ MAX_DEPTH }
    ensures moves { (around : Around) → depth_of around ≡ depth → Moves (parse_at tokens.now (Want around) at) (λ r. parse_at tokens.now (have (plain_of r.0) around) r.1) result }
    ensures onward { IfOk result (λ r. at < r.1) }
{
    if mark_at(tokens, at, Mark::Not) {
        if depth == MAX_DEPTH {
            return Err(ParseError::TooDeep { at });
        }
        let (inner, end) = neg(alloc, tokens, at + 1, depth + 1)?;
        return Ok((negation(alloc, inner)?, end));
    }
    if mark_at(tokens, at, Mark::LeftParen) {
        if depth == MAX_DEPTH {
            return Err(ParseError::TooDeep { at });
        }
        let (inner, end) = pred(alloc, tokens, at + 1, depth + 1)?;
        if !mark_at(tokens, end, Mark::RightParen) {
            return Err(ParseError::Syntax { at: end });
        }
        return Ok((inner, end + 1));
    }
    match name_there(tokens, at) {
        Some(first) => atom(alloc, tokens, first, at + 1),
        None => Err(ParseError::Syntax { at }),
    }
}
