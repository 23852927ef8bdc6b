ghost use Rattle.std.specs.Prelude.{◌≡◌, IfOk, true};
ghost use Rattle.std.specs.List.{list_all};
ghost use Rattle.ch_sql_grammar.specs.declared.head.Head.{Head};
ghost use Rattle.ch_sql_grammar.specs.Grammar.{is_plain_item};
ghost use Rattle.ch_sql_places.specs.Machine.{Heading, is_one, is_semi, outer_of, takes_tail, may_be_outer};
ghost use Rattle.ch_sql_places.specs.Parsing.{parse_at, Moves};
ghost use Rattle.ch_sql_parser.specs.Behind.{is_inner, opens_select, LeadsTo, behind_head};

use crate::head_steps::{head_end, head_step};
use crate::token_at::{mark_at, name_there};
use ch_cells::{Bytes, Memory};
use ch_sql_grammar::{
    ColumnRef, Head, HeadPlace, HeadStep, HeadTaker, Item, Mark, ParseError, Source, Terminal,
};
use std::alloc::Global;

/// The head that the tokens from `at` on give, and the number of the token behind it.
pub fn head_from(
    alloc: Global,
    tokens: &[Terminal],
    from: HeadPlace,
    at: usize,
) -> Result<(Head, usize), ParseError>
    ensures moves { Moves (parse_at tokens.now (Heading from) at) (λ r. parse_at tokens.now (Heading (HeadPlace.Whole r.0)) r.1) result }
    // From the inner key of a semi-join on, the head is a semi-join's.
    ensures semi { is_inner from ≡ true → IfOk result (λ r. is_semi r.0.source ≡ true) }
{
    let mut place = from;
    let mut next = at;
    while let Some(token) = tokens.get(next) {
        match head_step(alloc, place, token)? {
            HeadStep::On(behind) => place = behind,
            HeadStep::Done(head) => return Ok((head, next)),
            HeadStep::Stuck => return Err(ParseError::Syntax { at: next }),
        }
        next += 1;
    }
    match head_end(place) {
        Some(head) => Ok((head, next)),
        None => Err(ParseError::Syntax { at: next }),
    }
}

/// Whether `IN ( SELECT` comes.
#[tactic(auto, unfolding(crate::specs::Behind::opens_select))]
fn opens_inner(tokens: &[Terminal], at: usize) -> bool
    ensures { result ≡ opens_select tokens.now at }
{
    mark_at(tokens, at, Mark::In)
        && mark_at(tokens, at + 1, Mark::LeftParen)
        && mark_at(tokens, at + 2, Mark::Select)
}

/// The key of a semi-join, where one begins, and the number of the token behind its SELECT.
fn semi_key(
    alloc: Global,
    tokens: &[Terminal],
    at: usize,
) -> Result<Option<(ColumnRef, usize)>, Memory>
    ensures { (h : Head) → IfOk result (LeadsTo tokens.now h at) }
{
    let Some(first) = name_there(tokens, at) else {
        return Ok(None);
    };
    if !mark_at(tokens, at + 1, Mark::Dot) {
        if !opens_inner(tokens, at + 1) {
            return Ok(None);
        }
        let name = Bytes::from_slice(alloc, first.as_slice())?;
        return Ok(Some((ColumnRef { table: None, name }, at + 4)));
    }
    let Some(second) = name_there(tokens, at + 2) else {
        return Ok(None);
    };
    if !opens_inner(tokens, at + 3) {
        return Ok(None);
    }
    let table = Bytes::from_slice(alloc, first.as_slice())?;
    let name = Bytes::from_slice(alloc, second.as_slice())?;
    let key = ColumnRef {
        table: Some(table),
        name,
    };
    Ok(Some((key, at + 6)))
}

fn is_plain(item: &Item) -> bool
    ensures { result ≡ is_plain_item item.now }
{
    match item {
        Item::Star | Item::Column(_) => true,
        Item::Max(_) | Item::Min(_) => false,
    }
}

fn are_plain(items: &[Item]) -> bool
    ensures { result ≡ list_all is_plain_item items.now }
{
    items.iter().all(|item| is_plain(item))
}

fn is_table(source: &Source) -> bool
    ensures { result ≡ is_one source.now }
{
    match source {
        Source::One(_) => true,
        _ => false,
    }
}

/// Whether a tail may follow the head.
pub fn may_end_in_tail(head: &Head) -> bool
    ensures { result ≡ takes_tail head.now }
{
    !head.distinct && is_table(&head.source)
}

/// Whether the head may be that of a semi-join's outer table.
fn is_outer(head: &Head) -> bool
    ensures { result ≡ may_be_outer head.now }
{
    may_end_in_tail(head) && are_plain(head.items.as_slice())
}

/// Behind the SELECT of a semi-join.
fn inner_place(head: Head, key: ColumnRef) -> HeadPlace
    requires { is_one head.source ≡ true }
    ensures { result ≡ HeadPlace.Taking (HeadTaker.InnerKey head.items (outer_of head.source) key) }
{
    let Head { items, source, .. } = head;
    match source.into_one() {
        Some(outer) => HeadPlace::Taking(HeadTaker::InnerKey(items, outer, key)),
        None => unreachable!(),
    }
}

/// The head of the semi-join that begins behind a head's WHERE, or else that head.
pub fn semi_join(
    alloc: Global,
    tokens: &[Terminal],
    head: Head,
    at: usize,
) -> Result<(Head, usize), ParseError>
    ensures { Moves (parse_at tokens.now (Heading (HeadPlace.Whole head)) at) (λ r. behind_head tokens.now r.0 r.1) result }
{
    if !mark_at(tokens, at, Mark::Where) || !is_outer(&head) {
        return Ok((head, at));
    }
    match semi_key(alloc, tokens, at + 1)? {
        Some((key, next)) => head_from(alloc, tokens, inner_place(head, key), next),
        None => Ok((head, at)),
    }
}
