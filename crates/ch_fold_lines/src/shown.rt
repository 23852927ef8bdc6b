ghost use Rattle.std.specs.Prelude.{◌≡◌, IfOk, map, slice_index_or};
ghost use Rattle.ch_cells.specs.CellRef.{cell_of};
ghost use Rattle.ch_cells.specs.declared.Kind.TheVariants as kind;
ghost use Rattle.ch_fold_lines.specs.AnswerLines.{lines_in};
ghost use Rattle.ch_fold_lines.specs.Shown as spec;

use crate::answer_lines::AnswerLines;
use crate::places::printed_kinds;
use ch_cells::{Answer, Bytes, CellRef, Header, Kind, Listed, Memory, Row, copy_lent};
use ch_flat::Sorted;
use ch_pred::Bound;
use ch_ranks::Ranks;
use std::alloc::Global;

/// The cell that a word of a column of this kind stands for.
pub(crate) fn shown_cell(ranks: &Ranks, kind: Kind, word: i64) -> CellRef<'_>
    ensures { cell_of result ≡ spec.shown_cell ranks.now kind word }
{
    match kind {
        Kind::Text => {
            if word < 0 || word >= i64::from(ranks.size()) {
                return CellRef::Number(word);
            }
            match ranks.text(word as u32) {
                Some(text) => CellRef::Text(text),
                None => CellRef::Number(word),
            }
        }
        Kind::Number | Kind::Void => CellRef::Number(word),
    }
}

/// The kind at a place. Past the end it is that of numbers.
pub(crate) fn kind_at(kinds: &[Kind], place: usize) -> Kind
    ensures { result ≡ slice_index_or kinds.now place kind.Number }
{
    match kinds.get(place) {
        Some(kind) => *kind,
        None => Kind::Number,
    }
}

/// The cells of a line.
#[tactic(auto, using(crate::proofs::Lines::shown_more))]
fn shown_line(alloc: Global, ranks: &Ranks, kinds: &[Kind], words: &[i64]) -> Result<Row, Memory>
    ensures { IfOk result (λ row. row ≡ spec.shown_line ranks.now kinds.now words.now) }
{
    let mut row = Vec::with_capacity(alloc, words.len())?;
    for (i, word) in words.iter().enumerate() {
        let kind = kind_at(kinds, i);
        row.push_reserved(copy_lent(alloc, shown_cell(ranks, kind, *word))?);
    }
    Ok(Listed::from_vec(row))
}

fn shown_lines(
    alloc: Global,
    ranks: &Ranks,
    kinds: &[Kind],
    lines: &Sorted<'_>,
) -> Result<Listed<Row>, Memory>
    ensures { IfOk result (λ rows. rows ≡ map (spec.shown_line ranks.now kinds.now) lines.now) }
{
    let mut rows = Vec::with_capacity(alloc, lines.len())?;
    for at in 0..lines.len() {
        rows.push_reserved(shown_line(alloc, ranks, kinds, lines.row(at))?);
    }
    Ok(Listed::from_vec(rows))
}

fn shown_slices(
    alloc: Global,
    ranks: &Ranks,
    kinds: &[Kind],
    lines: &[&[i64]],
) -> Result<Listed<Row>, Memory>
    ensures { IfOk result (λ rows. rows ≡ map (spec.shown_line ranks.now kinds.now) (map (λ l. l.now) lines.now)) }
{
    let mut rows = Vec::with_capacity(alloc, lines.len())?;
    for line in lines {
        rows.push_reserved(shown_line(alloc, ranks, kinds, line)?);
    }
    Ok(Listed::from_vec(rows))
}

fn copy_header(alloc: Global, header: &Header) -> Result<Header, Memory>
    ensures { IfOk result (λ copy. copy ≡ header.now) }
{
    let mut copy = Vec::with_capacity(alloc, header.len())?;
    for name in header.as_slice() {
        copy.push_reserved(Bytes::from_slice(alloc, name.as_slice())?);
    }
    Ok(Listed::from_vec(copy))
}

fn shown_rows(
    alloc: Global,
    ranks: &Ranks,
    kinds: &[Kind],
    lines: &AnswerLines<'_>,
) -> Result<Listed<Row>, Memory>
    ensures { IfOk result (λ rows. rows ≡ map (spec.shown_line ranks.now kinds.now) (lines_in lines.now)) }
{
    match lines {
        AnswerLines::Kept(rows) => shown_lines(alloc, ranks, kinds, &rows.sorted(alloc)?),
        AnswerLines::Made(rows) => shown_lines(alloc, ranks, kinds, &rows.sorted(alloc)?),
        AnswerLines::InOrder(lines) => shown_slices(alloc, ranks, kinds, lines.as_slice()),
    }
}

/// The answer that has the cells of the lines.
pub fn answer_of_lines(
    alloc: Global,
    query: &Bound,
    ranks: &Ranks,
    lines: &AnswerLines<'_>,
) -> Result<Answer, Memory>
    ensures header { IfOk result (λ a. a.header ≡ query.now.header) }
    ensures rows { IfOk result (λ a. a.rows ≡ map (spec.shown_line ranks.now (spec.printed_kinds query.now)) (lines_in lines.now)) }
{
    let kinds = printed_kinds(alloc, query)?;
    let rows = shown_rows(alloc, ranks, kinds.as_slice(), lines)?;
    let header = copy_header(alloc, &query.header)?;
    Ok(Answer { header, rows })
}
