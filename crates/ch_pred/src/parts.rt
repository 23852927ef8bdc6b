ghost use Rattle.std.specs.Prelude.{◌≡◌, ◌==◌, ◌&&◌, if◌then◌else◌, IfOk, map, true, false};
ghost use Rattle.ch_pred.specs.Gate as gate;
ghost use Rattle.ch_pred.specs.Part as spec;
ghost use Rattle.ch_pred.specs.Part.{HasForm, part_of, weak_of};
ghost use Rattle.ch_pred.specs.Plain.{Compare, Between, Within, Like, Not, Or, nil, cons, plain_of, plains};

use crate::copies::{copy_arg, copy_literal, copy_literals};
use crate::pred::{Arg, BoundPred, Cmp, Col, Literal};
use ch_cells::{Bytes, Memory};
use std::alloc::Global;

/// What a side can tell of a predicate without its LIKEs: each LIKE and each atom that names a column of another side is
/// true, and negations are pushed inward.
#[tactic(auto, using(crate::proofs::Forms::weak_form))]
pub fn weak(alloc: Global, p: &BoundPred, side: u8) -> Result<BoundPred, Memory>
    ensures value { IfOk result (λ q. plain_of q ≡ weak_of (plain_of p.now) side) }
    ensures form { IfOk result (λ q. HasForm false (plain_of q)) }
{
    pushed(alloc, p, false, side, false)
}

/// What a side can tell of a predicate: `weak` in which the LIKEs of the side stay.
#[tactic(auto, using(crate::proofs::Forms::part_form))]
pub fn part(alloc: Global, p: &BoundPred, side: u8) -> Result<BoundPred, Memory>
    ensures value { IfOk result (λ q. plain_of q ≡ part_of (plain_of p.now) side) }
    ensures form { IfOk result (λ q. HasForm true (plain_of q)) }
{
    pushed(alloc, p, true, side, false)
}

/// Whether no LIKE stands in the predicate.
pub fn is_exact(p: &BoundPred) -> bool
    ensures { result ≡ spec.is_exact (plain_of p.now) }
{
    match p {
        BoundPred::Truth => true,
        BoundPred::Compare(_, _, _) => true,
        BoundPred::Between(_, _, _) => true,
        BoundPred::Within(_, _) => true,
        BoundPred::Like(_, _) => false,
        BoundPred::And(members) | BoundPred::Or(members) => {
            for member in members {
                if !is_exact(member) {
                    return false;
                }
            }
            true
        }
        BoundPred::Not(inner) => is_exact(inner),
    }
}

/// The predicate, or its negation, with negations pushed inward and what the side can't tell made true.
#[cycle(pushing)]
fn pushed(
    alloc: Global,
    p: &BoundPred,
    likes: bool,
    side: u8,
    negated: bool,
) -> Result<BoundPred, Memory>
    ensures { IfOk result (λ q. plain_of q ≡ spec.pushed likes side negated (plain_of p.now)) }
{
    match p {
        BoundPred::Truth => Ok(constant(alloc, !negated)),
        BoundPred::Compare(col, cmp, arg) => pushed_compare(alloc, *col, *cmp, arg, side, negated),
        BoundPred::Between(col, low, high) => {
            pushed_between(alloc, *col, low, high, side, negated)
        }
        BoundPred::Within(col, literals) => pushed_within(alloc, *col, literals, side, negated),
        BoundPred::Like(col, prefix) => {
            pushed_like(alloc, *col, prefix.as_slice(), likes, side, negated)
        }
        BoundPred::And(members) => {
            let parts = all_pushed(alloc, members, likes, side, negated)?;
            if negated {
                Ok(any_of(parts))
            } else {
                both_of(alloc, parts)
            }
        }
        BoundPred::Or(members) => {
            let parts = all_pushed(alloc, members, likes, side, negated)?;
            if negated {
                both_of(alloc, parts)
            } else {
                Ok(any_of(parts))
            }
        }
        BoundPred::Not(inner) => pushed(alloc, inner, likes, side, !negated),
    }
}

#[cycle(pushing)]
fn all_pushed(
    alloc: Global,
    members: &[BoundPred],
    likes: bool,
    side: u8,
    negated: bool,
) -> Result<Vec<BoundPred>, Memory>
    ensures { IfOk result (λ parts. plains (map plain_of parts.items) ≡ spec.all_pushed likes side negated (plains (map plain_of members.now))) }
{
    let mut parts = Vec::new(alloc);
    for member in members {
        parts.push(pushed(alloc, member, likes, side, negated)?)?;
    }
    Ok(parts)
}

/// A predicate that always holds, or never.
fn constant(alloc: Global, holds: bool) -> BoundPred
    ensures { plain_of result ≡ spec.constant holds }
{
    if holds {
        BoundPred::Truth
    } else {
        BoundPred::Or(Vec::new(alloc))
    }
}

/// The comparison that holds where the other doesn't.
fn turned(cmp: Cmp) -> Cmp
    ensures { result ≡ spec.turned cmp }
{
    match cmp {
        Cmp::Eq => Cmp::Ne,
        Cmp::Ne => Cmp::Eq,
        Cmp::Lt => Cmp::Ge,
        Cmp::Le => Cmp::Gt,
        Cmp::Gt => Cmp::Le,
        Cmp::Ge => Cmp::Lt,
    }
}

fn is_of_side(side: u8, arg: &Arg) -> bool
    ensures { result ≡ gate.is_of_side side arg.now }
{
    match arg {
        Arg::Column(col) => col.side == side,
        Arg::Value(_) => true,
    }
}

fn pushed_compare(
    alloc: Global,
    col: Col,
    cmp: Cmp,
    arg: &Arg,
    side: u8,
    negated: bool,
) -> Result<BoundPred, Memory>
    ensures { IfOk result (λ q. plain_of q ≡ spec.own_atom ((col.side == side) && gate.is_of_side side arg.now) (Compare col (if negated then spec.turned cmp else cmp) arg.now)) }
{
    if col.side == side && is_of_side(side, arg) {
        let cmp = if negated { turned(cmp) } else { cmp };
        Ok(BoundPred::Compare(col, cmp, copy_arg(alloc, arg)?))
    } else {
        Ok(BoundPred::Truth)
    }
}

fn pushed_between(
    alloc: Global,
    col: Col,
    low: &Literal,
    high: &Literal,
    side: u8,
    negated: bool,
) -> Result<BoundPred, Memory>
    ensures { IfOk result (λ q. plain_of q ≡ spec.own_atom (col.side == side) (if negated then spec.outside col low.now high.now else Between col low.now high.now)) }
{
    if col.side != side {
        return Ok(BoundPred::Truth);
    }
    let low = copy_literal(alloc, low)?;
    let high = copy_literal(alloc, high)?;
    if !negated {
        return Ok(BoundPred::Between(col, low, high));
    }
    let mut ends = Vec::new(alloc);
    ends.push(BoundPred::Compare(col, Cmp::Lt, Arg::Value(low)))?;
    ends.push(BoundPred::Compare(col, Cmp::Gt, Arg::Value(high)))?;
    Ok(BoundPred::Or(ends))
}

fn pushed_within(
    alloc: Global,
    col: Col,
    literals: &[Literal],
    side: u8,
    negated: bool,
) -> Result<BoundPred, Memory>
    ensures { IfOk result (λ q. plain_of q ≡ spec.own_atom (col.side == side) (if negated then spec.and_of (spec.differs_from col literals.now) else Within col literals.now)) }
{
    if col.side != side {
        return Ok(BoundPred::Truth);
    }
    if negated {
        Ok(and_of(differs_from(alloc, col, literals)?))
    } else {
        Ok(BoundPred::Within(col, copy_literals(alloc, literals)?))
    }
}

fn differs_from(alloc: Global, col: Col, literals: &[Literal]) -> Result<Vec<BoundPred>, Memory>
    ensures { IfOk result (λ parts. plains (map plain_of parts.items) ≡ spec.differs_from col literals.now) }
{
    let mut parts = Vec::new(alloc);
    for literal in literals {
        let value = Arg::Value(copy_literal(alloc, literal)?);
        parts.push(BoundPred::Compare(col, Cmp::Ne, value))?;
    }
    Ok(parts)
}

fn pushed_like(
    alloc: Global,
    col: Col,
    prefix: &[u8],
    likes: bool,
    side: u8,
    negated: bool,
) -> Result<BoundPred, Memory>
    ensures { IfOk result (λ q. plain_of q ≡ spec.own_atom (likes && (col.side == side)) (if negated then Not (Like col prefix.now) else Like col prefix.now)) }
{
    if !likes || col.side != side {
        return Ok(BoundPred::Truth);
    }
    let like = BoundPred::Like(col, Bytes::from_slice(alloc, prefix)?);
    if negated {
        Ok(BoundPred::Not(Box::new(alloc, like)?))
    } else {
        Ok(like)
    }
}

fn is_true(p: &BoundPred) -> bool
    ensures { result ≡ spec.is_true (plain_of p.now) }
{
    match p {
        BoundPred::Truth => true,
        _ => false,
    }
}

/// All of them, without those that are true.
fn both_of(alloc: Global, parts: Vec<BoundPred>) -> Result<BoundPred, Memory>
    ensures { IfOk result (λ q. plain_of q ≡ spec.both_of (plains (map plain_of parts.items))) }
{
    let mut kept = Vec::new(alloc);
    for part in parts {
        if is_true(&part) {
            drop(part);
        } else {
            kept.push(part)?;
        }
    }
    Ok(and_of(kept))
}

/// All of them: none is true, and one is that one.
fn and_of(parts: Vec<BoundPred>) -> BoundPred
    ensures { plain_of result ≡ spec.and_of (plains (map plain_of parts.items)) }
{
    let mut parts = parts;
    if parts.len() > 1 {
        return BoundPred::And(parts);
    }
    match parts.pop() {
        Some(part) => part,
        None => BoundPred::Truth,
    }
}

fn some_true(parts: &[BoundPred]) -> bool
    ensures { result ≡ spec.some_true (plains (map plain_of parts.now)) }
{
    for part in parts {
        if is_true(part) {
            return true;
        }
    }
    false
}

/// Any of them, which is true where one of them is.
fn any_of(parts: Vec<BoundPred>) -> BoundPred
    ensures { plain_of result ≡ spec.any_of (plains (map plain_of parts.items)) }
{
    if some_true(parts.as_slice()) {
        drop(parts);
        BoundPred::Truth
    } else {
        BoundPred::Or(parts)
    }
}
