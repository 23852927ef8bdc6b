ghost use Rattle.std.specs.Prelude.{◌≡◌, ℕ, ◌≤◌, ◌++◌, List, ℤ, pos, ◌≤ℤ◌, IfOk, OnOk, length, drop, filter};
ghost use Rattle.ch_lists.specs.Members.{In, Each};
ghost use Rattle.ch_pred.specs.Meaning as meaning;
ghost use Rattle.ch_pred.specs.Sound.{IsCarried};
ghost use Rattle.ch_words.specs.Readings.{NamesOnly};
ghost use Rattle.ch_words.specs.Rows.{words_seen};
ghost use Rattle.ch_word_cells.specs.Fits.{WordsFit};
ghost use Rattle.ch_fold_pairs.specs.Pairs as pairs;
ghost use Rattle.ch_fold_pairs.specs.Pairs.{KeysRise, has_key, pair_lines, pair_seen, partner_lines};

use crate::lines::Lines;
use ch_cells::Memory;
use ch_flat::{Sorted, word_at};
use ch_fold_lines::word_place;
use ch_pred::{Bound, Printed};
use ch_ranks::Ranks;
use ch_word_cells::holds_on_pair;
use std::alloc::Global;

/// A row without its first word.
fn rest_of(row: &[i64]) -> &[i64]
    ensures { result.now ≡ drop 1 row.now }
{
    match row.get(1..) {
        Some(rest) => rest,
        None => &[],
    }
}

fn pair_word(query: &Bound, item: &Printed, first: &[i64], second: &[i64]) -> i64
    ensures { result ≡ meaning.printed_value (pos 0) (meaning.both (words_seen query.now first.now) (words_seen query.now second.now)) item.now }
{
    match item {
        Printed::Column(col) => {
            let words = if col.side == 0 { first } else { second };
            word_at(words, word_place(query, *col))
        }
        Printed::Best => 0,
    }
}

/// What a pair of rows with keys in front prints.
fn pair_line(alloc: Global, query: &Bound, left: &[i64], right: &[i64]) -> Result<Vec<i64>, Memory>
    ensures { IfOk result (λ line. line.items ≡ meaning.line query.now.printed (pos 0) (pair_seen query.now left.now right.now)) }
{
    let first = rest_of(left);
    let second = rest_of(right);
    let mut line = Vec::new(alloc);
    for item in query.printed.as_slice() {
        line.push(pair_word(query, item, first, second))?;
    }
    Ok(line)
}

/// Whether two rows with keys in front have equal keys, and hold as a pair.
fn is_partner(query: &Bound, ranks: &Ranks, left: &[i64], right: &[i64]) -> bool
    requires names { NamesOnly (IsCarried query.now) query.now }
    requires fits { WordsFit ranks.now query.now (pair_seen query.now left.now right.now) }
    ensures { result ≡ pairs.is_partner ranks.now query.now left.now right.now }
{
    if word_at(left, 0) != word_at(right, 0) {
        return false;
    }
    holds_on_pair(query, ranks, rest_of(left), rest_of(right))
}

/// The first place from one on where a key isn't below a key: no row before it has this key, or one above it.
fn first_from(rows: &Sorted<'_>, from: usize, key: i64) -> usize
    requires { from ≤ length rows.now }
    ensures within { result ≤ length rows.now }
    ensures passed { (k : ℤ) → key ≤ℤ k → filter (has_key k) (drop from rows.now) ≡ filter (has_key k) (drop result rows.now) }
{
    for at in from..rows.len() {
        if word_at(rows.row(at), 0) >= key {
            return at;
        }
    }
    rows.len()
}

/// Adds what the pairs of a left row print, with those of the right rows from a place on that have its key.
fn push_partners(
    alloc: Global,
    query: &Bound,
    ranks: &Ranks,
    left: &[i64],
    right: &Sorted<'_>,
    from: usize,
    lines: &mut Lines,
) -> Result<(), Memory>
    requires names { NamesOnly (IsCarried query.now) query.now }
    requires fits { Each (λ r. WordsFit ranks.now query.now (pair_seen query.now left.now r)) right.now }
    requires rises { KeysRise right.now }
    requires width { lines.old.width ≡ length query.now.printed }
    ensures { OnOk result (lines.new ≡ record { width = lines.old.width; rows = lines.old.rows ++ partner_lines ranks.now query.now (drop from right.now) left.now }) }
{
    let key = word_at(left, 0);
    for at in from..right.len() {
        let row = right.row(at);
        if word_at(row, 0) > key {
            return Ok(());
        }
        if is_partner(query, ranks, left, row) {
            let line = pair_line(alloc, query, left, row)?;
            lines.push(line.as_slice())?;
        }
    }
    Ok(())
}

/// What the pairs of rows print that have equal keys and hold. The rows of both tables have their keys in front, and come in
/// the order of these.
pub(crate) fn joined(
    alloc: Global,
    query: &Bound,
    ranks: &Ranks,
    left: &Sorted<'_>,
    right: &Sorted<'_>,
) -> Result<Lines, Memory>
    requires names { NamesOnly (IsCarried query.now) query.now }
    requires fits { (l r : List ℤ) → In l left.now → In r right.now → WordsFit ranks.now query.now (pair_seen query.now l r) }
    requires left_rises { KeysRise left.now }
    requires right_rises { KeysRise right.now }
    ensures { IfOk result (λ lines. lines ≡ record { width = length query.now.printed; rows = pair_lines ranks.now query.now left.now right.now }) }
{
    let mut lines = Lines::new(alloc, query.printed.len())?;
    let mut from = 0;
    for at in 0..left.len() {
        let row = left.row(at);
        from = first_from(right, from, word_at(row, 0));
        push_partners(alloc, query, ranks, row, right, from, &mut lines)?;
    }
    Ok(lines)
}
