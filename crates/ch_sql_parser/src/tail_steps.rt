ghost use Rattle.std.specs.Prelude.{◌≡◌, IfOk};
ghost use Rattle.ch_sql_grammar.specs.Tokens.{name_in};
ghost use Rattle.ch_sql_grammar.specs.declared.tail.TailPlace.TheVariants as place;
ghost use Rattle.ch_sql_grammar.specs.Tree.{bare_col};
ghost use Rattle.ch_sql_grammar.specs.TailSteps.{on_mark, step_of, settled_of, taken_by, start_step_of, direction_step_of, keys_step_of, having_step_of, dim_step_of, dims_step_of, dotted_step, named_step, name_step_of, numbered_step, number_step_of, mark_step_of, settled_end, end_of};

use ch_cells::{Bytes, Listed, Memory};
use ch_sql_grammar::{
    Agg, ColumnRef, Having, Mark, SkyDim, Tail, TailPlace, TailTaker, Terminal, is_mark,
};
use std::alloc::Global;

fn copied_name(alloc: Global, token: &Terminal) -> Result<Option<Bytes>, Memory>
    ensures { IfOk result (λ o. o ≡ name_in token.now) }
{
    match token {
        Terminal::Name(name) => Ok(Some(Bytes::from_slice(alloc, name.as_slice())?)),
        _ => Ok(None),
    }
}

/// The place behind a token that must be this mark.
fn on(token: &Terminal, mark: Mark, next: TailPlace) -> Option<TailPlace>
    ensures { result ≡ on_mark mark token.now next }
{
    if is_mark(mark, token) {
        Some(next)
    } else {
        drop(next);
        None
    }
}

/// The place behind the column of a taker.
fn taken(taker: TailTaker, col: ColumnRef) -> Result<TailPlace, Memory>
    ensures { IfOk result (λ next. next ≡ taken_by taker col) }
{
    match taker {
        TailTaker::By => Ok(TailPlace::Direction(col)),
        TailTaker::Key(keys) => {
            let mut keys = keys;
            keys.push(col)?;
            Ok(TailPlace::Keys(keys))
        }
        TailTaker::Sum(keys) => Ok(TailPlace::SumClose(keys, col)),
        TailTaker::Dim(dims) => Ok(TailPlace::DimDirection(dims, col)),
    }
}

fn start_step(begins: bool, token: &Terminal) -> Option<TailPlace>
    ensures { result ≡ start_step_of begins token.now }
{
    if is_mark(Mark::Semicolon, token) {
        return Some(TailPlace::Ended(Tail::Nothing));
    }
    if is_mark(Mark::Order, token) && begins {
        return Some(TailPlace::Order);
    }
    if is_mark(Mark::Group, token) && begins {
        return Some(TailPlace::Group);
    }
    if is_mark(Mark::Skyline, token) && begins {
        return Some(TailPlace::Skyline);
    }
    None
}

fn direction_step(by: ColumnRef, token: &Terminal) -> Option<TailPlace>
    ensures { result ≡ direction_step_of by token.now }
{
    if is_mark(Mark::Asc, token) {
        return Some(TailPlace::Limit(by, false));
    }
    if is_mark(Mark::Desc, token) {
        return Some(TailPlace::Limit(by, true));
    }
    on(token, Mark::Limit, TailPlace::LimitNumber(by, false))
}

fn keys_step(keys: Listed<ColumnRef>, token: &Terminal) -> Option<TailPlace>
    ensures { result ≡ keys_step_of keys token.now }
{
    if is_mark(Mark::Comma, token) {
        return Some(TailPlace::Taking(TailTaker::Key(keys)));
    }
    if is_mark(Mark::Having, token) {
        return Some(TailPlace::Having(keys));
    }
    on(
        token,
        Mark::Semicolon,
        TailPlace::Ended(Tail::Group { keys, having: None }),
    )
}

fn having_step(keys: Listed<ColumnRef>, token: &Terminal) -> Option<TailPlace>
    ensures { result ≡ having_step_of keys token.now }
{
    if is_mark(Mark::Sum, token) {
        return Some(TailPlace::SumOpen(keys));
    }
    on(token, Mark::Count, TailPlace::CountOpen(keys))
}

fn dim_step(
    dims: Listed<SkyDim>,
    col: ColumnRef,
    token: &Terminal,
) -> Result<Option<TailPlace>, Memory>
    ensures { IfOk result (λ o. o ≡ dim_step_of dims col token.now) }
{
    let max = is_mark(Mark::Max, token);
    if !max && !is_mark(Mark::Min, token) {
        return Ok(None);
    }
    let mut dims = dims;
    dims.push(SkyDim { col, max })?;
    Ok(Some(TailPlace::Dims(dims)))
}

fn dims_step(dims: Listed<SkyDim>, token: &Terminal) -> Option<TailPlace>
    ensures { result ≡ dims_step_of dims token.now }
{
    if is_mark(Mark::Comma, token) {
        return Some(TailPlace::Taking(TailTaker::Dim(dims)));
    }
    on(
        token,
        Mark::Semicolon,
        TailPlace::Ended(Tail::Skyline { dims }),
    )
}

/// Where a column comes.
fn take_step(alloc: Global, taker: TailTaker, token: &Terminal) -> Result<Option<TailPlace>, Memory>
    ensures { IfOk result (λ o. o ≡ name_step_of (place.Taking taker) token.now) }
{
    match copied_name(alloc, token) {
        Ok(Some(name)) => Ok(Some(TailPlace::Name(taker, name))),
        Ok(None) => {
            drop(taker);
            Ok(None)
        }
        Err(error) => {
            drop(taker);
            Err(error)
        }
    }
}

/// Behind the dot of a column and a name.
fn dotted(taker: TailTaker, table: Bytes, name: Bytes) -> Result<Option<TailPlace>, Memory>
    ensures { IfOk result (λ o. o ≡ dotted_step taker table name) }
{
    let col = ColumnRef {
        table: Some(table),
        name,
    };
    Ok(Some(taken(taker, col)?))
}

/// Behind the dot of a column.
fn dot_step(
    alloc: Global,
    taker: TailTaker,
    table: Bytes,
    token: &Terminal,
) -> Result<Option<TailPlace>, Memory>
    ensures { IfOk result (λ o. o ≡ name_step_of (place.Dot taker table) token.now) }
{
    match copied_name(alloc, token) {
        Ok(Some(name)) => dotted(taker, table, name),
        Ok(None) => {
            drop(taker);
            Ok(None)
        }
        Err(error) => {
            drop(taker);
            Err(error)
        }
    }
}

/// Behind LIMIT.
fn limit_step(by: ColumnRef, descending: bool, token: &Terminal) -> Option<TailPlace>
    ensures { result ≡ number_step_of (place.LimitNumber by descending) token.now }
{
    match token {
        Terminal::Number(limit) => Some(TailPlace::Whole(Tail::Top {
            by,
            descending,
            limit: *limit,
        })),
        _ => None,
    }
}

/// Behind the `>` of HAVING.
fn above_step(keys: Listed<ColumnRef>, agg: Agg, token: &Terminal) -> Option<TailPlace>
    ensures { result ≡ number_step_of (place.AboveNumber keys agg) token.now }
{
    match token {
        Terminal::Number(above) => Some(TailPlace::Whole(Tail::Group {
            keys,
            having: Some(Having { agg, above: *above }),
        })),
        _ => None,
    }
}

/// Behind a column that has ended.
fn ended_step(
    taker: TailTaker,
    col: ColumnRef,
    token: &Terminal,
) -> Result<Option<TailPlace>, Memory>
    ensures { IfOk result (λ o. o ≡ settled_of (taken_by taker col) token.now) }
{
    match taker {
        TailTaker::By => Ok(direction_step(col, token)),
        TailTaker::Key(keys) => {
            let mut keys = keys;
            keys.push(col)?;
            Ok(keys_step(keys, token))
        }
        TailTaker::Sum(keys) => Ok(on(
            token,
            Mark::RightParen,
            TailPlace::Above(keys, Agg::Sum(col)),
        )),
        TailTaker::Dim(dims) => dim_step(dims, col, token),
    }
}

fn bare(name: Bytes) -> ColumnRef
    ensures { result ≡ bare_col name }
{
    ColumnRef { table: None, name }
}

/// Behind the first name of a column.
fn name_step(taker: TailTaker, name: Bytes, token: &Terminal) -> Result<Option<TailPlace>, Memory>
    ensures { IfOk result (λ o. o ≡ step_of (place.Name taker name) token.now) }
{
    if is_mark(Mark::Dot, token) {
        return Ok(Some(TailPlace::Dot(taker, name)));
    }
    ended_step(taker, bare(name), token)
}

/// Behind GROUP.
fn group_step(alloc: Global, token: &Terminal) -> Option<TailPlace>
    ensures { result ≡ settled_of place.Group token.now }
{
    on(
        token,
        Mark::By,
        TailPlace::Taking(TailTaker::Key(Listed::new(alloc))),
    )
}

/// Behind SKYLINE.
fn skyline_step(alloc: Global, token: &Terminal) -> Option<TailPlace>
    ensures { result ≡ settled_of place.Skyline token.now }
{
    on(
        token,
        Mark::Of,
        TailPlace::Taking(TailTaker::Dim(Listed::new(alloc))),
    )
}

/// The place behind a token, if one may come at the place.
pub fn tail_step(
    alloc: Global,
    place: TailPlace,
    token: &Terminal,
) -> Result<Option<TailPlace>, Memory>
    ensures { IfOk result (λ o. o ≡ step_of place token.now) }
{
    match place {
        TailPlace::Start(begins) => Ok(start_step(begins, token)),
        TailPlace::Order => Ok(on(token, Mark::By, TailPlace::Taking(TailTaker::By))),
        TailPlace::Group => Ok(group_step(alloc, token)),
        TailPlace::Skyline => Ok(skyline_step(alloc, token)),
        TailPlace::Taking(taker) => take_step(alloc, taker, token),
        TailPlace::Name(taker, name) => name_step(taker, name, token),
        TailPlace::Dot(taker, table) => dot_step(alloc, taker, table, token),
        TailPlace::Direction(by) => Ok(direction_step(by, token)),
        TailPlace::Limit(by, descending) => Ok(on(
            token,
            Mark::Limit,
            TailPlace::LimitNumber(by, descending),
        )),
        TailPlace::LimitNumber(by, descending) => Ok(limit_step(by, descending, token)),
        TailPlace::Keys(keys) => Ok(keys_step(keys, token)),
        TailPlace::Having(keys) => Ok(having_step(keys, token)),
        TailPlace::SumOpen(keys) => Ok(on(
            token,
            Mark::LeftParen,
            TailPlace::Taking(TailTaker::Sum(keys)),
        )),
        TailPlace::SumClose(keys, col) => Ok(on(
            token,
            Mark::RightParen,
            TailPlace::Above(keys, Agg::Sum(col)),
        )),
        TailPlace::CountOpen(keys) => Ok(on(token, Mark::LeftParen, TailPlace::CountStar(keys))),
        TailPlace::CountStar(keys) => Ok(on(token, Mark::Star, TailPlace::CountClose(keys))),
        TailPlace::CountClose(keys) => Ok(on(
            token,
            Mark::RightParen,
            TailPlace::Above(keys, Agg::Count),
        )),
        TailPlace::Above(keys, agg) => Ok(on(token, Mark::Gt, TailPlace::AboveNumber(keys, agg))),
        TailPlace::AboveNumber(keys, agg) => Ok(above_step(keys, agg, token)),
        TailPlace::DimDirection(dims, col) => dim_step(dims, col, token),
        TailPlace::Dims(dims) => Ok(dims_step(dims, token)),
        TailPlace::Whole(tail) => Ok(on(token, Mark::Semicolon, TailPlace::Ended(tail))),
        TailPlace::Ended(_) => Ok(None),
    }
}

/// The tail whose last column ends here, if it is a key.
fn ended_tail(taker: TailTaker, col: ColumnRef) -> Result<Option<Tail>, Memory>
    ensures { IfOk result (λ o. o ≡ settled_end (taken_by taker col)) }
{
    match taker {
        TailTaker::Key(keys) => {
            let mut keys = keys;
            keys.push(col)?;
            Ok(Some(Tail::Group { keys, having: None }))
        }
        other => {
            drop(other);
            Ok(None)
        }
    }
}

/// The tail, where the tokens may end at the place.
pub fn tail_end(place: TailPlace) -> Result<Option<Tail>, Memory>
    ensures { IfOk result (λ o. o ≡ end_of place) }
{
    match place {
        TailPlace::Name(taker, name) => ended_tail(taker, bare(name)),
        TailPlace::Start(_) => Ok(Some(Tail::Nothing)),
        TailPlace::Keys(keys) => Ok(Some(Tail::Group { keys, having: None })),
        TailPlace::Dims(dims) => Ok(Some(Tail::Skyline { dims })),
        TailPlace::Whole(tail) => Ok(Some(tail)),
        TailPlace::Ended(tail) => Ok(Some(tail)),
        other => {
            drop(other);
            Ok(None)
        }
    }
}
