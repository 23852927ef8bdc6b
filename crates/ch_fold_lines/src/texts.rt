ghost use Rattle.std.specs.Prelude.{◌≡◌, ℕ, List, [], ◌++◌, IfOk, OnOk, flat_map, map};
ghost use Rattle.ch_print.specs.AnswerText.{text_of};
ghost use Rattle.ch_print.specs.Written.{HasWritten};
ghost use Rattle.ch_fold_lines.specs.AnswerLines.{line_text, lines_in};
ghost use Rattle.ch_fold_lines.specs.Shown as spec;

use crate::answer_lines::AnswerLines;
use crate::places::printed_kinds;
use crate::shown::{kind_at, shown_cell};
use ch_cells::{Bytes, Kind, Memory};
use ch_flat::Sorted;
use ch_pred::Bound;
use ch_print::AnswerText;
use ch_ranks::Ranks;
use std::alloc::Global;

/// Writes a line, word by word.
fn push_line(
    text: &mut AnswerText,
    ranks: &Ranks,
    kinds: &[Kind],
    words: &[i64],
) -> Result<(), Memory>
    ensures { (bytes : List ℕ) → HasWritten text.old bytes [] → OnOk result (HasWritten text.new (bytes ++ line_text ranks.now kinds.now words.now) []) }
{
    for (i, word) in words.iter().enumerate() {
        text.push(shown_cell(ranks, kind_at(kinds, i), *word))?;
    }
    text.end_row()
}

fn push_lines(
    text: &mut AnswerText,
    ranks: &Ranks,
    kinds: &[Kind],
    lines: &Sorted<'_>,
) -> Result<(), Memory>
    ensures { (bytes : List ℕ) → HasWritten text.old bytes [] → OnOk result (HasWritten text.new (bytes ++ flat_map (line_text ranks.now kinds.now) lines.now) []) }
{
    for at in 0..lines.len() {
        push_line(text, ranks, kinds, lines.row(at))?;
    }
    Ok(())
}

fn push_slices(
    text: &mut AnswerText,
    ranks: &Ranks,
    kinds: &[Kind],
    lines: &[&[i64]],
) -> Result<(), Memory>
    ensures { (bytes : List ℕ) → HasWritten text.old bytes [] → OnOk result (HasWritten text.new (bytes ++ flat_map (line_text ranks.now kinds.now) (map (λ l. l.now) lines.now)) []) }
{
    for line in lines {
        push_line(text, ranks, kinds, line)?;
    }
    Ok(())
}

fn push_all(
    alloc: Global,
    text: &mut AnswerText,
    ranks: &Ranks,
    kinds: &[Kind],
    lines: &AnswerLines<'_>,
) -> Result<(), Memory>
    ensures { (bytes : List ℕ) → HasWritten text.old bytes [] → OnOk result (HasWritten text.new (bytes ++ flat_map (line_text ranks.now kinds.now) (lines_in lines.now)) []) }
{
    match lines {
        AnswerLines::Kept(rows) => push_lines(text, ranks, kinds, &rows.sorted(alloc)?),
        AnswerLines::Made(rows) => push_lines(text, ranks, kinds, &rows.sorted(alloc)?),
        AnswerLines::InOrder(lines) => push_slices(text, ranks, kinds, lines.as_slice()),
    }
}

/// The text of the answer that has the cells of the lines. It is written line by line, and no row of cells is made.
pub fn text_of_lines(
    alloc: Global,
    query: &Bound,
    ranks: &Ranks,
    lines: &AnswerLines<'_>,
) -> Result<Bytes, Memory>
    ensures { IfOk result (λ text. text ≡ text_of (record { header = query.now.header; rows = map (spec.shown_line ranks.now (spec.printed_kinds query.now)) (lines_in lines.now) })) }
{
    let kinds = printed_kinds(alloc, query)?;
    let mut text = AnswerText::new(alloc, &query.header)?;
    push_all(alloc, &mut text, ranks, kinds.as_slice(), lines)?;
    text.into_text()
}
