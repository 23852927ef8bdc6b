ghost use Rattle.std.specs.Prelude.{◌≡◌, ℕ, List, IfOk};
ghost use Rattle.ch_cover.specs.Rows.{Row};
ghost use Rattle.ch_lists.specs.Members.{Each};
ghost use Rattle.ch_pred.specs.Sound.{IsSound};
ghost use Rattle.ch_fold_lines.specs.Rows.{RowFits, answer_read};
ghost use Rattle.ch_finish.specs.Fold.{StandsFor};
ghost use Rattle.ch_finish.specs.Received.{AreRowsOf};

use crate::fold::Fold;
use crate::received::Received;
use ch_cells::{Answer, Memory};
use ch_pred::Bound;
use ch_ranks::Ranks;
use std::alloc::Global;

/// The fold of rows that arrived, one after another.
pub fn folded(alloc: Global, query: &Bound, rows: &Received, ranks: &Ranks) -> Result<Fold, Memory>
    requires sound { IsSound query.now }
    requires fits { Each (λ a. RowFits ranks.now query.now a.side a.words) rows.now }
    ensures { (given : List Row) → AreRowsOf rows.now given → IfOk result (λ fold. StandsFor ranks.now query.now fold given) }
{
    let mut fold = Fold::new(alloc, query)?;
    for row in rows.as_slice() {
        fold.add(query, ranks, row.side, row.words.as_slice())?;
    }
    Ok(fold)
}

/// The answer over rows that arrived: they are folded one after another.
pub fn finish(
    alloc: Global,
    query: &Bound,
    rows: &Received,
    ranks: &Ranks,
) -> Result<Answer, Memory>
    requires sound { IsSound query.now }
    requires fits { Each (λ a. RowFits ranks.now query.now a.side a.words) rows.now }
    ensures header { IfOk result (λ a. a.header ≡ query.now.header) }
    ensures rows { (given : List Row) → AreRowsOf rows.now given → IfOk result (λ a. a.rows ≡ answer_read ranks.now query.now given) }
{
    let fold = folded(alloc, query, rows, ranks)?;
    fold.answer(alloc, query, ranks)
}
