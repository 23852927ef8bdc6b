ghost use Rattle.std.specs.Prelude.{ℕ, List};
ghost use Rattle.ch_cells.specs.declared.Cell.{Cell};
ghost use Rattle.ch_pred.specs.declared.bound.Bound.{Bound};
ghost use Rattle.ch_words.specs.Packets.{AreSound, all_sent, kinds_read};
ghost use Rattle.ch_words.specs.Rows.{Gate};
ghost use Rattle.ch_fold_lines.specs.Rows.{RowsFit};

/// The rows that workers send of a query's tables fit.
pub fn sent_rows_fit()
    ensures { (texts : List (List ℕ)) (b : Bound) (tables : List (List (List Cell))) (gate : Gate) → AreSound texts (kinds_read b b.shape) b tables
        → RowsFit texts b (all_sent texts gate b tables) }
{}
