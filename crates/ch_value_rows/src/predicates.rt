//! Predicates, as a line writes them: pieces with `;` between two of them, of which each that joins stands behind what it
//! joins.
//!
//! - `truth`;
//! - `COLUMN SIGN VALUE`, where the value is a literal or a column; `COLUMN between LITERAL LITERAL`; `COLUMN in LITERALS`;
//!   `COLUMN like TEXT`;
//! - `and N`, `or N` and `not`: of the last N pieces, or of the last.
//!
//! The columns are `a` and `b` of the first table, and `c` of the second. A row that may pass has a number in `a` and a text in
//! `b`. A literal is a number behind `#`, or a text.
use crate::reading::cut;
use ch_cells::Bytes;
use ch_pred::{Arg, BoundPred, Cmp, Col, Literal};
use std::alloc::Global;

pub(crate) const NUMBER: Col = Col { side: 0, at: 0 };

pub(crate) const TEXT: Col = Col { side: 0, at: 1 };

/// A column of the second table.
pub(crate) const OTHER: Col = Col { side: 1, at: 0 };

fn col_of(name: &str) -> Option<Col> {
    match name {
        "a" => Some(NUMBER),
        "b" => Some(TEXT),
        "c" => Some(OTHER),
        _ => None,
    }
}

fn cmp_of(sign: &str) -> Option<Cmp> {
    match sign {
        "=" => Some(Cmp::Eq),
        "<>" => Some(Cmp::Ne),
        "<" => Some(Cmp::Lt),
        "<=" => Some(Cmp::Le),
        ">" => Some(Cmp::Gt),
        ">=" => Some(Cmp::Ge),
        _ => None,
    }
}

fn literal_of(alloc: Global, said: &str) -> anyhow::Result<Literal> {
    match said.strip_prefix('#') {
        Some(number) => Ok(Literal::Number(number.parse::<i64>()?)),
        None => Ok(Literal::Text(Bytes::from_slice(alloc, said.as_bytes())?)),
    }
}

fn literals_of(alloc: Global, said: &str) -> anyhow::Result<Vec<Literal>> {
    let mut literals = Vec::new(alloc);
    for literal in said.split_whitespace() {
        literals.push(literal_of(alloc, literal)?)?;
    }
    Ok(literals)
}

fn arg_of(alloc: Global, said: &str) -> anyhow::Result<Arg> {
    match col_of(said) {
        Some(col) => Ok(Arg::Column(col)),
        None => Ok(Arg::Value(literal_of(alloc, said)?)),
    }
}

fn between(alloc: Global, col: Col, said: &str) -> anyhow::Result<BoundPred> {
    let (low, high) = cut(said, " ");
    let low = literal_of(alloc, low)?;
    match literal_of(alloc, high) {
        Ok(high) => Ok(BoundPred::Between(col, low, high)),
        Err(error) => {
            drop(low);
            Err(error)
        }
    }
}

/// A piece that names a column.
fn test_of(alloc: Global, col: Col, said: &str) -> anyhow::Result<BoundPred> {
    let (word, behind) = cut(said, " ");
    match cmp_of(word) {
        Some(cmp) => Ok(BoundPred::Compare(col, cmp, arg_of(alloc, behind)?)),
        None if word == "between" => between(alloc, col, behind),
        None if word == "in" => Ok(BoundPred::Within(col, literals_of(alloc, behind)?)),
        None => {
            let prefix = Bytes::from_slice(alloc, behind.as_bytes())?;
            Ok(BoundPred::Like(col, prefix))
        }
    }
}

/// The last of the pieces, in the order in which they stand.
fn taken(alloc: Global, pieces: &mut Vec<BoundPred>, said: &str) -> anyhow::Result<Vec<BoundPred>> {
    let mut last = Vec::new(alloc);
    for _ in 0..said.parse::<u32>()? {
        if let Some(piece) = pieces.pop() {
            last.push(piece)?;
        }
    }
    last.reverse();
    Ok(last)
}

fn negated(alloc: Global, pieces: &mut Vec<BoundPred>) -> anyhow::Result<BoundPred> {
    let inner = pieces.pop().unwrap_or(BoundPred::Truth);
    Ok(BoundPred::Not(Box::new(alloc, inner)?))
}

/// A piece, over those before it.
fn piece_of(alloc: Global, pieces: &mut Vec<BoundPred>, said: &str) -> anyhow::Result<BoundPred> {
    let (word, behind) = cut(said, " ");
    match word {
        "and" => Ok(BoundPred::And(taken(alloc, pieces, behind)?)),
        "or" => Ok(BoundPred::Or(taken(alloc, pieces, behind)?)),
        "not" => negated(alloc, pieces),
        _ => match col_of(word) {
            Some(col) => test_of(alloc, col, behind),
            None => Ok(BoundPred::Truth),
        },
    }
}

pub(crate) fn pred_of(alloc: Global, said: &str) -> anyhow::Result<BoundPred> {
    let mut pieces = Vec::new(alloc);
    for said in said.split(';') {
        let piece = piece_of(alloc, &mut pieces, said)?;
        pieces.push(piece)?;
    }
    Ok(pieces.pop().unwrap_or(BoundPred::Truth))
}
