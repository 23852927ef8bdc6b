ghost use Rattle.std.specs.Prelude.{◌≡◌, IfOk};
ghost use Rattle.ch_sql_grammar.specs.Tokens.{name_in};
ghost use Rattle.ch_sql_grammar.specs.declared.head.HeadPlace.TheVariants as place;
ghost use Rattle.ch_sql_grammar.specs.Tree.{bare_col};
ghost use Rattle.ch_sql_grammar.specs.HeadSteps.{on_mark, join_head, semi_head, step_of, settled_of, items_step_of, listing_step_of, closing_step_of, table_step_of, dotted_step, named_step, name_given, name_step_of, mark_step_of, taken_by, settled_end, end_of};

use ch_cells::{Bytes, Listed, Memory};
use ch_sql_grammar::{
    ColumnRef, Head, HeadPlace, HeadStep, HeadTaker, Item, Mark, Source, Terminal, is_mark,
};
use std::alloc::Global;

fn copied_name(alloc: Global, token: &Terminal) -> Result<Option<Bytes>, Memory>
    ensures { IfOk result (λ o. o ≡ name_in token.now) }
{
    match token {
        Terminal::Name(name) => Ok(Some(Bytes::from_slice(alloc, name.as_slice())?)),
        _ => Ok(None),
    }
}

/// The place behind a token that must be this mark.
fn on(token: &Terminal, mark: Mark, next: HeadPlace) -> HeadStep
    ensures { result ≡ on_mark mark token.now next }
{
    if is_mark(mark, token) {
        HeadStep::On(next)
    } else {
        drop(next);
        HeadStep::Stuck
    }
}

/// The head of a join.
fn joined(
    items: Listed<Item>,
    left: Bytes,
    right: Bytes,
    first_on: ColumnRef,
    second_on: ColumnRef,
) -> Head
    ensures { result ≡ join_head items left right first_on second_on }
{
    Head {
        distinct: false,
        items,
        source: Source::Join {
            left,
            right,
            first_on,
            second_on,
        },
    }
}

/// The place behind the column of a taker.
fn taken(taker: HeadTaker, col: ColumnRef) -> Result<HeadPlace, Memory>
    ensures { IfOk result (λ next. next ≡ taken_by taker col) }
{
    match taker {
        HeadTaker::Item(distinct, items) => {
            let mut items = items;
            items.push(Item::Column(col))?;
            Ok(HeadPlace::Listing(distinct, items))
        }
        HeadTaker::Extreme(items, max) => Ok(HeadPlace::Closing(items, max, col)),
        HeadTaker::FirstOn(items, left, right) => Ok(HeadPlace::Equals(items, left, right, col)),
        HeadTaker::SecondOn(items, left, right, first_on) => {
            Ok(HeadPlace::Whole(joined(items, left, right, first_on, col)))
        }
        HeadTaker::InnerKey(items, outer, key) => Ok(HeadPlace::InnerFrom(items, outer, key, col)),
    }
}

/// Where an item comes.
fn item_step(
    alloc: Global,
    distinct: bool,
    items: Listed<Item>,
    token: &Terminal,
) -> Result<HeadStep, Memory>
    ensures { IfOk result (λ s. s ≡ items_step_of distinct items token.now) }
{
    if is_mark(Mark::Star, token) {
        let mut items = items;
        items.push(Item::Star)?;
        return Ok(HeadStep::On(HeadPlace::Listing(distinct, items)));
    }
    if is_mark(Mark::Max, token) && !distinct {
        return Ok(HeadStep::On(HeadPlace::Extreme(items, true)));
    }
    if is_mark(Mark::Min, token) && !distinct {
        return Ok(HeadStep::On(HeadPlace::Extreme(items, false)));
    }
    match copied_name(alloc, token)? {
        Some(name) => Ok(HeadStep::On(HeadPlace::Name(HeadTaker::Item(distinct, items), name))),
        None => Ok(HeadStep::Stuck),
    }
}

/// Behind an item.
fn list_step(distinct: bool, items: Listed<Item>, token: &Terminal) -> HeadStep
    ensures { result ≡ listing_step_of distinct items token.now }
{
    if is_mark(Mark::Comma, token) {
        return HeadStep::On(HeadPlace::Items(distinct, items));
    }
    on(token, Mark::From, HeadPlace::From(distinct, items))
}

/// Behind the column of MAX or MIN.
fn close_step(
    items: Listed<Item>,
    max: bool,
    col: ColumnRef,
    token: &Terminal,
) -> Result<HeadStep, Memory>
    ensures { IfOk result (λ s. s ≡ closing_step_of items max col token.now) }
{
    let mut items = items;
    if max {
        items.push(Item::Max(col))?;
    } else {
        items.push(Item::Min(col))?;
    }
    Ok(on(token, Mark::RightParen, HeadPlace::Listing(false, items)))
}

/// Behind the first table.
fn table_step(distinct: bool, items: Listed<Item>, table: Bytes, token: &Terminal) -> HeadStep
    ensures { result ≡ table_step_of distinct items table token.now }
{
    if is_mark(Mark::Join, token) && !distinct {
        return HeadStep::On(HeadPlace::JoinTable(items, table));
    }
    HeadStep::Done(Head {
        distinct,
        items,
        source: Source::One(table),
    })
}

/// Where a column comes.
fn take_step(alloc: Global, taker: HeadTaker, token: &Terminal) -> Result<HeadStep, Memory>
    ensures { IfOk result (λ s. s ≡ name_step_of (place.Taking taker) token.now) }
{
    match copied_name(alloc, token) {
        Ok(Some(name)) => Ok(HeadStep::On(HeadPlace::Name(taker, name))),
        Ok(None) => {
            drop(taker);
            Ok(HeadStep::Stuck)
        }
        Err(error) => {
            drop(taker);
            Err(error)
        }
    }
}

/// Behind the dot of a column and a name.
fn dotted(taker: HeadTaker, table: Bytes, name: Bytes) -> Result<HeadStep, Memory>
    ensures { IfOk result (λ s. s ≡ dotted_step taker table name) }
{
    let col = ColumnRef {
        table: Some(table),
        name,
    };
    Ok(HeadStep::On(taken(taker, col)?))
}

/// Behind the dot of a column.
fn dot_step(
    alloc: Global,
    taker: HeadTaker,
    table: Bytes,
    token: &Terminal,
) -> Result<HeadStep, Memory>
    ensures { IfOk result (λ s. s ≡ name_step_of (place.Dot taker table) token.now) }
{
    match copied_name(alloc, token) {
        Ok(Some(name)) => dotted(taker, table, name),
        Ok(None) => {
            drop(taker);
            Ok(HeadStep::Stuck)
        }
        Err(error) => {
            drop(taker);
            Err(error)
        }
    }
}

/// Behind FROM.
fn from_step(
    alloc: Global,
    distinct: bool,
    items: Listed<Item>,
    token: &Terminal,
) -> Result<HeadStep, Memory>
    ensures { IfOk result (λ s. s ≡ name_step_of (place.From distinct items) token.now) }
{
    match copied_name(alloc, token)? {
        Some(name) => Ok(HeadStep::On(HeadPlace::Table(distinct, items, name))),
        None => Ok(HeadStep::Stuck),
    }
}

/// Behind JOIN.
fn join_step(
    alloc: Global,
    items: Listed<Item>,
    left: Bytes,
    token: &Terminal,
) -> Result<HeadStep, Memory>
    ensures { IfOk result (λ s. s ≡ name_step_of (place.JoinTable items left) token.now) }
{
    match copied_name(alloc, token) {
        Ok(Some(name)) => Ok(HeadStep::On(HeadPlace::On(items, left, name))),
        Ok(None) => {
            drop((items, left));
            Ok(HeadStep::Stuck)
        }
        Err(error) => {
            drop((items, left));
            Err(error)
        }
    }
}

/// Behind the FROM of a semi-join's inner select.
fn inner_step(
    alloc: Global,
    items: Listed<Item>,
    outer: Bytes,
    key: ColumnRef,
    inner_key: ColumnRef,
    token: &Terminal,
) -> Result<HeadStep, Memory>
    ensures { IfOk result (λ s. s ≡ name_step_of (place.InnerTable items outer key inner_key) token.now) }
{
    match copied_name(alloc, token) {
        Ok(Some(name)) => Ok(HeadStep::On(HeadPlace::InnerClose(
            items, outer, key, inner_key, name,
        ))),
        Ok(None) => {
            drop((items, outer, key, inner_key));
            Ok(HeadStep::Stuck)
        }
        Err(error) => {
            drop((items, outer, key, inner_key));
            Err(error)
        }
    }
}

/// The head of a semi-join.
fn semi(
    items: Listed<Item>,
    outer: Bytes,
    key: ColumnRef,
    inner_key: ColumnRef,
    inner: Bytes,
) -> HeadPlace
    ensures { result ≡ place.Whole (semi_head items outer inner key inner_key) }
{
    HeadPlace::Whole(Head {
        distinct: false,
        items,
        source: Source::Semi {
            outer,
            inner,
            key,
            inner_key,
        },
    })
}

/// Behind a column that has ended.
fn ended_step(taker: HeadTaker, col: ColumnRef, token: &Terminal) -> Result<HeadStep, Memory>
    ensures { IfOk result (λ s. s ≡ settled_of (taken_by taker col) token.now) }
{
    match taker {
        HeadTaker::Item(distinct, items) => {
            let mut items = items;
            items.push(Item::Column(col))?;
            Ok(list_step(distinct, items, token))
        }
        HeadTaker::Extreme(items, max) => close_step(items, max, col, token),
        HeadTaker::FirstOn(items, left, right) => Ok(on(
            token,
            Mark::Eq,
            HeadPlace::Taking(HeadTaker::SecondOn(items, left, right, col)),
        )),
        HeadTaker::SecondOn(items, left, right, first_on) => {
            Ok(HeadStep::Done(joined(items, left, right, first_on, col)))
        }
        HeadTaker::InnerKey(items, outer, key) => Ok(on(
            token,
            Mark::From,
            HeadPlace::InnerTable(items, outer, key, col),
        )),
    }
}

fn bare(name: Bytes) -> ColumnRef
    ensures { result ≡ bare_col name }
{
    ColumnRef { table: None, name }
}

/// Behind the first name of a column.
fn name_step(taker: HeadTaker, name: Bytes, token: &Terminal) -> Result<HeadStep, Memory>
    ensures { IfOk result (λ s. s ≡ step_of (place.Name taker name) token.now) }
{
    if is_mark(Mark::Dot, token) {
        return Ok(HeadStep::On(HeadPlace::Dot(taker, name)));
    }
    ended_step(taker, bare(name), token)
}

/// Behind SELECT.
fn first_step(alloc: Global, token: &Terminal) -> Result<HeadStep, Memory>
    ensures { IfOk result (λ s. s ≡ settled_of place.Select token.now) }
{
    if is_mark(Mark::Distinct, token) {
        return Ok(HeadStep::On(HeadPlace::Items(true, Listed::new(alloc))));
    }
    item_step(alloc, false, Listed::new(alloc), token)
}

/// What a token does at a place of a head.
pub fn head_step(alloc: Global, place: HeadPlace, token: &Terminal) -> Result<HeadStep, Memory>
    ensures { IfOk result (λ s. s ≡ step_of place token.now) }
{
    match place {
        HeadPlace::Start => Ok(on(token, Mark::Select, HeadPlace::Select)),
        HeadPlace::Select => first_step(alloc, token),
        HeadPlace::Items(distinct, items) => item_step(alloc, distinct, items, token),
        HeadPlace::Extreme(items, max) => Ok(on(
            token,
            Mark::LeftParen,
            HeadPlace::Taking(HeadTaker::Extreme(items, max)),
        )),
        HeadPlace::Taking(taker) => take_step(alloc, taker, token),
        HeadPlace::Name(taker, name) => name_step(taker, name, token),
        HeadPlace::Dot(taker, table) => dot_step(alloc, taker, table, token),
        HeadPlace::Closing(items, max, col) => close_step(items, max, col, token),
        HeadPlace::Listing(distinct, items) => Ok(list_step(distinct, items, token)),
        HeadPlace::From(distinct, items) => from_step(alloc, distinct, items, token),
        HeadPlace::Table(distinct, items, table) => Ok(table_step(distinct, items, table, token)),
        HeadPlace::JoinTable(items, left) => join_step(alloc, items, left, token),
        HeadPlace::On(items, left, right) => Ok(on(
            token,
            Mark::On,
            HeadPlace::Taking(HeadTaker::FirstOn(items, left, right)),
        )),
        HeadPlace::Equals(items, left, right, first_on) => Ok(on(
            token,
            Mark::Eq,
            HeadPlace::Taking(HeadTaker::SecondOn(items, left, right, first_on)),
        )),
        HeadPlace::InnerFrom(items, outer, key, inner_key) => Ok(on(
            token,
            Mark::From,
            HeadPlace::InnerTable(items, outer, key, inner_key),
        )),
        HeadPlace::InnerTable(items, outer, key, inner_key) => {
            inner_step(alloc, items, outer, key, inner_key, token)
        }
        HeadPlace::InnerClose(items, outer, key, inner_key, inner) => Ok(on(
            token,
            Mark::RightParen,
            semi(items, outer, key, inner_key, inner),
        )),
        HeadPlace::Whole(head) => Ok(HeadStep::Done(head)),
    }
}

/// The head whose last column ends here, if it is the last one of ON.
fn ended_head(taker: HeadTaker, col: ColumnRef) -> Option<Head>
    ensures { result ≡ settled_end (taken_by taker col) }
{
    match taker {
        HeadTaker::SecondOn(items, left, right, first_on) => {
            Some(joined(items, left, right, first_on, col))
        }
        other => {
            drop(other);
            None
        }
    }
}

/// The head, where the tokens may end at the place.
pub fn head_end(place: HeadPlace) -> Option<Head>
    ensures { result ≡ end_of place }
{
    match place {
        HeadPlace::Name(taker, name) => ended_head(taker, bare(name)),
        HeadPlace::Table(distinct, items, table) => Some(Head {
            distinct,
            items,
            source: Source::One(table),
        }),
        HeadPlace::Whole(head) => Some(head),
        other => {
            drop(other);
            None
        }
    }
}
