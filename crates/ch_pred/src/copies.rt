ghost use Rattle.std.specs.Prelude.{◌≡◌, IfOk, map};
ghost use Rattle.ch_pred.specs.Copy.{IsCopy};
ghost use Rattle.ch_pred.specs.Plain.{plain_of};

use crate::bound::{Bound, Shape};
use crate::pred::{Arg, BoundPred, Literal};
use ch_cells::{Bytes, Header, Listed, Memory};
use std::alloc::Global;

pub fn copy_literal(alloc: Global, literal: &Literal) -> Result<Literal, Memory>
    ensures { IfOk result (λ copy. copy ≡ literal.now) }
{
    match literal {
        Literal::Number(n) => Ok(Literal::Number(*n)),
        Literal::Text(text) => Ok(Literal::Text(Bytes::from_slice(alloc, text.as_slice())?)),
    }
}

pub fn copy_arg(alloc: Global, arg: &Arg) -> Result<Arg, Memory>
    ensures { IfOk result (λ copy. copy ≡ arg.now) }
{
    match arg {
        Arg::Column(col) => Ok(Arg::Column(*col)),
        Arg::Value(literal) => Ok(Arg::Value(copy_literal(alloc, literal)?)),
    }
}

pub fn copy_literals(alloc: Global, literals: &[Literal]) -> Result<Vec<Literal>, Memory>
    ensures { IfOk result (λ copy. copy.items ≡ literals.now) }
{
    let mut copy = Vec::new(alloc);
    for literal in literals {
        copy.push(copy_literal(alloc, literal)?)?;
    }
    Ok(copy)
}

/// An equal predicate; only its lists may have more room.
#[cycle(copying)]
fn copy_pred(alloc: Global, p: &BoundPred) -> Result<BoundPred, Memory>
    ensures { IfOk result (λ copy. plain_of copy ≡ plain_of p.now) }
{
    match p {
        BoundPred::Truth => Ok(BoundPred::Truth),
        BoundPred::Compare(col, cmp, arg) => {
            Ok(BoundPred::Compare(*col, *cmp, copy_arg(alloc, arg)?))
        }
        BoundPred::Between(col, low, high) => {
            let low = copy_literal(alloc, low)?;
            Ok(BoundPred::Between(*col, low, copy_literal(alloc, high)?))
        }
        BoundPred::Within(col, literals) => {
            Ok(BoundPred::Within(*col, copy_literals(alloc, literals)?))
        }
        BoundPred::Like(col, prefix) => {
            let prefix = Bytes::from_slice(alloc, prefix.as_slice())?;
            Ok(BoundPred::Like(*col, prefix))
        }
        BoundPred::And(members) => Ok(BoundPred::And(copy_preds(alloc, members)?)),
        BoundPred::Or(members) => Ok(BoundPred::Or(copy_preds(alloc, members)?)),
        BoundPred::Not(inner) => Ok(BoundPred::Not(Box::new(alloc, copy_pred(alloc, inner)?)?)),
    }
}

#[cycle(copying)]
fn copy_preds(alloc: Global, members: &[BoundPred]) -> Result<Vec<BoundPred>, Memory>
    ensures { IfOk result (λ copy. map plain_of copy.items ≡ map plain_of members.now) }
{
    let mut copy = Vec::new(alloc);
    for member in members {
        copy.push(copy_pred(alloc, member)?)?;
    }
    Ok(copy)
}

fn copy_listed<T: Copy>(alloc: Global, list: &Listed<T>) -> Result<Listed<T>, Memory>
    ensures { IfOk result (λ copy. copy ≡ list.now) }
{
    Ok(Listed::from_vec(Vec::from_slice(alloc, list.as_slice())?))
}

fn copy_per_side<T: Copy + Drop>(
    alloc: Global,
    lists: &Listed<Listed<T>>,
) -> Result<Listed<Listed<T>>, Memory>
    ensures { IfOk result (λ copy. copy ≡ lists.now) }
{
    let mut copy = Listed::new(alloc);
    for list in lists.as_slice() {
        copy.push(copy_listed(alloc, list)?)?;
    }
    Ok(copy)
}

fn copy_header(alloc: Global, header: &Header) -> Result<Header, Memory>
    ensures { IfOk result (λ copy. copy ≡ header.now) }
{
    let mut copy = Listed::new(alloc);
    for name in header.as_slice() {
        copy.push(Bytes::from_slice(alloc, name.as_slice())?)?;
    }
    Ok(copy)
}

fn copy_shape(alloc: Global, shape: &Shape) -> Result<Shape, Memory>
    ensures { IfOk result (λ copy. copy ≡ shape.now) }
{
    match shape {
        Shape::Filter => Ok(Shape::Filter),
        Shape::Distinct => Ok(Shape::Distinct),
        Shape::Top {
            by,
            descending,
            limit,
        } => Ok(Shape::Top {
            by: *by,
            descending: *descending,
            limit: *limit,
        }),
        Shape::Group { keys, max, value } => Ok(Shape::Group {
            keys: copy_listed(alloc, keys)?,
            max: *max,
            value: *value,
        }),
        Shape::Having { keys, sum, above } => Ok(Shape::Having {
            keys: copy_listed(alloc, keys)?,
            sum: *sum,
            above: *above,
        }),
        Shape::Join { left, right } => Ok(Shape::Join {
            left: *left,
            right: *right,
        }),
        Shape::Skyline { dims } => Ok(Shape::Skyline {
            dims: copy_listed(alloc, dims)?,
        }),
        Shape::Semi { key, inner } => Ok(Shape::Semi {
            key: *key,
            inner: *inner,
        }),
    }
}

/// An equal query; only the lists of its filter may have more room.
pub fn copy_bound(alloc: Global, b: &Bound) -> Result<Bound, Memory>
    ensures { IfOk result (λ copy. IsCopy copy b.now) }
{
    let tables = copy_listed(alloc, &b.tables)?;
    let carried = copy_per_side(alloc, &b.carried)?;
    let kinds = copy_per_side(alloc, &b.kinds)?;
    let header = copy_header(alloc, &b.header)?;
    let printed = copy_listed(alloc, &b.printed)?;
    let filter = copy_pred(alloc, &b.filter)?;
    let shape = copy_shape(alloc, &b.shape)?;
    Ok(Bound {
        tables,
        carried,
        kinds,
        header,
        printed,
        filter,
        shape,
    })
}
