ghost use Rattle.std.specs.Prelude.{◌≡◌, map, option_map, IfOk};
ghost use Rattle.ch_pred.specs.Plain as bound;
ghost use Rattle.ch_sql_grammar.specs.Tree.{plain_of, plains};
ghost use Rattle.ch_bind.specs.Binding as spec;

use crate::scope::{Scope, col_of};
use ch_cells::{Bytes, Memory};
use ch_pred::{Arg, BoundPred, Literal};
use ch_sql::{Pred, Side};
use std::alloc::Global;

fn copy_literal(alloc: Global, literal: &Literal) -> Result<Literal, Memory>
    ensures { IfOk result (λ copy. copy ≡ literal.now) }
{
    match literal {
        Literal::Number(n) => Ok(Literal::Number(*n)),
        Literal::Text(text) => Ok(Literal::Text(Bytes::from_slice(alloc, text.as_slice())?)),
    }
}

fn copy_literals(alloc: Global, literals: &[Literal]) -> Result<Vec<Literal>, Memory>
    ensures { IfOk result (λ copy. copy.items ≡ literals.now) }
{
    let mut copy = Vec::new(alloc);
    for literal in literals {
        copy.push(copy_literal(alloc, literal)?)?;
    }
    Ok(copy)
}

fn arg_of(alloc: Global, scope: &Scope, side: &Side) -> Result<Arg, Memory>
    ensures { IfOk result (λ arg. arg ≡ spec.arg_of scope.now side.now) }
{
    match side {
        Side::Column(col) => Ok(Arg::Column(col_of(scope, col))),
        Side::Value(literal) => Ok(Arg::Value(copy_literal(alloc, literal)?)),
    }
}

/// The predicate with each name replaced by its column.
#[cycle(binding)]
fn pred_of(alloc: Global, scope: &Scope, pred: &Pred) -> Result<BoundPred, Memory>
    ensures { IfOk result (λ p. bound.plain_of p ≡ spec.pred_of scope.now (plain_of pred.now)) }
{
    match pred {
        Pred::Compare(col, cmp, side) => {
            let col = col_of(scope, col);
            Ok(BoundPred::Compare(col, *cmp, arg_of(alloc, scope, side)?))
        }
        Pred::Between(col, low, high) => {
            let low = copy_literal(alloc, low)?;
            let col = col_of(scope, col);
            Ok(BoundPred::Between(col, low, copy_literal(alloc, high)?))
        }
        Pred::Within(col, literals) => {
            let col = col_of(scope, col);
            Ok(BoundPred::Within(col, copy_literals(alloc, literals)?))
        }
        Pred::Like(col, prefix) => {
            let prefix = Bytes::from_slice(alloc, prefix.as_slice())?;
            Ok(BoundPred::Like(col_of(scope, col), prefix))
        }
        Pred::And(members) => Ok(BoundPred::And(preds_of(alloc, scope, members)?)),
        Pred::Or(members) => Ok(BoundPred::Or(preds_of(alloc, scope, members)?)),
        Pred::Not(inner) => {
            let inner = pred_of(alloc, scope, inner)?;
            Ok(BoundPred::Not(Box::new(alloc, inner)?))
        }
    }
}

#[cycle(binding)]
fn preds_of(alloc: Global, scope: &Scope, members: &[Pred]) -> Result<Vec<BoundPred>, Memory>
    ensures { IfOk result (λ ps. bound.plains (map bound.plain_of ps.items) ≡ spec.preds_of scope.now (plains (map plain_of members.now))) }
{
    let mut preds = Vec::new(alloc);
    for member in members {
        preds.push(pred_of(alloc, scope, member)?)?;
    }
    Ok(preds)
}

/// The filter of a query; without WHERE each row holds.
pub(crate) fn filter_of(
    alloc: Global,
    scope: &Scope,
    filter: &Option<Pred>,
) -> Result<BoundPred, Memory>
    ensures { IfOk result (λ p. bound.plain_of p ≡ spec.filter_of scope.now (option_map plain_of filter.now)) }
{
    match filter {
        Some(pred) => pred_of(alloc, scope, pred),
        None => Ok(BoundPred::Truth),
    }
}
