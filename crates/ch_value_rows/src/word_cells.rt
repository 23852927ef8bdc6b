//! Filters on the words of rows.
ghost use Rattle.std.specs.Prelude.{◌≡◌, length, pos, true, ◌≤ℤ◌, ◌<ℤ◌};

use crate::lists::{one, two};
use crate::predicates::{OTHER, TEXT};
use crate::ranks::dictionary;
use crate::reading::cut;
use ch_cells::{Bytes, Kind, Memory};
use ch_pred::{Arg, Bound, BoundPred, Cmp, Printed, Shape};
use ch_ranks::Ranks;
use ch_word_cells::{holds_on_pair, holds_on_row};
use std::alloc::Global;

fn is_rank(ranks: &Ranks, word: i64) -> bool
    ensures { result ≡ true → (pos 0 ≤ℤ word) × (word <ℤ pos (length ranks.now)) }
{
    0 <= word && word < i64::from(ranks.size())
}

/// Whether the row with this word passes `b LIKE 'x%'`, if the word is a rank.
fn row_passes(alloc: Global, ranks: &Ranks, word: i64) -> Result<Option<bool>, Memory> {
    let carried = one(alloc, one(alloc, 1)?)?;
    let kinds = one(alloc, one(alloc, Kind::Text)?)?;
    let header = one(alloc, Bytes::from_slice(alloc, b"b")?)?;
    let printed = one(alloc, Printed::Column(TEXT))?;
    let prefix = Bytes::from_slice(alloc, b"x")?;
    let query = Bound {
        tables: one(alloc, 0)?,
        carried,
        kinds,
        header,
        printed,
        filter: BoundPred::Like(TEXT, prefix),
        shape: Shape::Filter,
    };
    if word < 0 || word >= i64::from(ranks.size()) {
        return Ok(None);
    }
    Ok(Some(holds_on_row(&query, ranks, &[word])))
}

/// Whether a pair of rows with these words passes `b < c`, if both are ranks.
fn pair_passes(
    alloc: Global,
    ranks: &Ranks,
    left: i64,
    right: i64,
) -> Result<Option<bool>, Memory> {
    let carried = two(alloc, one(alloc, 1)?, one(alloc, 0)?)?;
    let kinds = two(alloc, one(alloc, Kind::Text)?, one(alloc, Kind::Text)?)?;
    let header = one(alloc, Bytes::from_slice(alloc, b"b")?)?;
    let query = Bound {
        tables: two(alloc, 0, 1)?,
        carried,
        kinds,
        header,
        printed: one(alloc, Printed::Column(TEXT))?,
        filter: BoundPred::Compare(TEXT, Cmp::Lt, Arg::Column(OTHER)),
        shape: Shape::Join {
            left: TEXT,
            right: OTHER,
        },
    };
    if is_rank(ranks, left) && is_rank(ranks, right) {
        return Ok(Some(holds_on_pair(&query, ranks, &[left], &[right])));
    }
    Ok(None)
}

pub(crate) fn passes(alloc: Global, said: &str) -> anyhow::Result<String> {
    let (texts, word) = cut(said, "/");
    let ranks = dictionary(alloc, texts)?;
    let passes = row_passes(alloc, &ranks, word.parse::<i64>()?)?;
    Ok(format!(in alloc; "{passes:?}\n")?)
}

pub(crate) fn pair(alloc: Global, said: &str) -> anyhow::Result<String> {
    let (texts, words) = cut(said, "/");
    let (left, right) = cut(words, " ");
    let ranks = dictionary(alloc, texts)?;
    let (left, right) = (left.parse::<i64>()?, right.parse::<i64>()?);
    let passes = pair_passes(alloc, &ranks, left, right)?;
    Ok(format!(in alloc; "{passes:?}\n")?)
}
