//! Rows of words that stand for rows of cells: the meaning of a query over words is its meaning over cells, whatever the
//! order of the rows, and what the laws of pruning say of it.
#![tactic(auto)]

ghost use Rattle.std.specs.Prelude.{◌≡◌, ℕ, ℤ, pos, Bool, true, List, Option, IsPermutation, slice_index_or};
ghost use Rattle.ch_cells.specs.declared.Cell.{Cell};
ghost use Rattle.ch_cells.specs.declared.Cell.TheVariants as cell;
ghost use Rattle.ch_cells.specs.declared.Kind.{Kind};
ghost use Rattle.ch_lists.specs.Members.{Each};
ghost use Rattle.ch_pred.specs.Holds.{holds_of};
ghost use Rattle.ch_pred.specs.Names.{Names};
ghost use Rattle.ch_pred.specs.Part.{part_of};
ghost use Rattle.ch_lists.specs.Ordered.{IsExactOrder, SameBag};
ghost use Rattle.ch_cover.specs.Rows.{Row, Policy, AreRows};
ghost use Rattle.ch_cover.specs.Cover.{CoversOnce, CoversTwice};
ghost use Rattle.ch_pred.specs.Values.{View, cells_seen, words};
ghost use Rattle.ch_pred.specs.Meaning.{Asked, answer_to, answer, asked_of_cells, line, at, at_each, amount, dominates};
ghost use Rattle.ch_pred.specs.declared.bound.Bound.{Bound};
ghost use Rattle.ch_pred.specs.declared.bound.Dim.{Dim};
ghost use Rattle.ch_pred.specs.declared.bound.Shape.TheVariants as shape;
ghost use Rattle.ch_pred.specs.declared.pred.Col.{Col};
ghost use Rattle.ch_words.specs.Words.{Reading, asked_of_words, read_answer};
ghost use Rattle.ch_words.specs.Readings.{IsReading, NamesOnly, AllStandFor, left_of, right_of};
ghost use Rattle.ch_words.specs.Rows.{answer_over, Gate, GateFits, is_gated, answer_of_open, row_seen, words_seen};
ghost use Rattle.ch_words.specs.Ranks.{read_by};
ghost use Rattle.ch_words.specs.Packets.{AreSound, FitsKind, TablesFit, all_sent, kinds_read, packed};
ghost use Rattle.ch_pred.specs.Plain.{plain_of};
ghost use Rattle.ch_words.specs.Gates.{gate_of};
ghost use Rattle.ch_ranks.specs.Dictionary.{Ascends};
ghost use Rattle.ch_pred.specs.Sound.{IsCarried, IsSound, carried_of, IsWhole, has_one_table};
ghost use Rattle.ch_words.specs.Prunable.{PrunesBeaten, PrunesMatched, PrunesDominated, PrunesSmall, PrunesAlone, PrunesUnmatched, is_summed};
ghost use Rattle.ch_words.specs.Worked.{DistinctTexts};
ghost use Rattle.ch_words.specs.Policies.{Key, by_bit, least_recent};

/// Where the words of each row stand for its cells, in the columns that the query names, the answer over the cells is the
/// answer over the words, read.
pub fn words_tell_cells()
    ensures { (b : Bound) (d : Reading) → IsReading d b → NamesOnly (IsCarried b) b
        → (rows inner : List (View Cell)) (words inner_words : List (View ℤ))
        → AllStandFor d (left_of (IsCarried b)) rows words → AllStandFor d (right_of (IsCarried b)) inner inner_words
        → answer_to (asked_of_cells b) rows inner ≡ read_answer d b (answer_to (asked_of_words d b) words inner_words) }
{}

/// The premises can be met: a query with a text column and its table, with the rows that are sent of it and their answers.
pub fn worked()
    ensures { DistinctTexts }
{}

/// The answer doesn't depend on the order of a table's rows.
pub fn order_is_nothing<V>()
    ensures { (q : Asked V) → IsExactOrder q.values.compare → (rows others inner inner_others : List (View V)) → SameBag rows others → SameBag inner inner_others
        → answer_to q rows inner ≡ answer_to q others inner_others }
{}

/// The answer over the tables is the answer over the rows that workers send of them, in any order, read by the dictionary.
/// Each of these rows has its gate as its bit.
pub fn rows_tell_tables()
    ensures answer { (texts : List (List ℕ)) (kinds : ℕ → ℕ → Kind) (b : Bound) (tables : List (List (List Cell))) (gate : Gate) → AreSound texts kinds b tables
        → (rows : List Row) → IsPermutation (all_sent texts gate b tables) rows → answer b tables ≡ read_answer (read_by texts kinds) b (answer_over (read_by texts kinds) b rows) }
    ensures rows { (texts : List (List ℕ)) (kinds : ℕ → ℕ → Kind) (b : Bound) (tables : List (List (List Cell))) (gate : Gate) → AreSound texts kinds b tables
        → AreRows (is_gated gate b) (all_sent texts gate b tables) }
{}

/// A sound query names only what it carries. With tables that fit it, and by a dictionary that ascends, it has what the laws
/// of this crate ask for.
pub fn sound_queries_fit()
    ensures names { (b : Bound) → IsSound b → NamesOnly (IsCarried b) b }
    ensures tables { (texts : List (List ℕ)) (b : Bound) (tables : List (List (List Cell))) → IsSound b → Ascends texts → TablesFit texts b tables
        → AreSound texts (kinds_read b b.shape) b tables }
{}

/// A row's gate, which is its bit, is whether the part of its side holds on the row's cells. The part names columns of that
/// side alone.
pub fn parts_tell_bits()
    ensures names { (b : Bound) → IsSound b → (side : ℕ) → Names (λ s at. (s ≡ side) × IsCarried b s at) (part_of (plain_of b.filter) side) }
    ensures bit { (texts : List (List ℕ)) (kinds : ℕ → ℕ → Kind) (b : Bound) → IsSound b → Ascends texts → (side : ℕ) (row : List Cell)
        → Each (λ at. FitsKind texts (kinds side at) (slice_index_or row at (cell.Number (pos 0)))) (carried_of b side)
        → holds_of (cells_seen row) (part_of (plain_of b.filter) side) ≡ gate_of (read_by texts kinds) b side (words_seen b (packed texts b side row)) }
{}

/// Over rows of one table whose bit is their gate, the rows that hold are those whose bit is set.
pub fn bits_tell_gates()
    ensures { (d : Reading) (b : Bound) (gate : Gate) → has_one_table b.shape ≡ true → GateFits gate (asked_of_words d b) b.shape
        → (rows : List Row) → AreRows (is_gated gate b) rows → answer_over d b rows ≡ answer_of_open d b rows }
{}

/// The gates of a sound query fit its kind: for one table the gate is whether a row holds, in a join it follows for both rows
/// of each pair that holds, and in a semi-join it is whether an outer row holds, and is true of each inner row.
pub fn gates_fit()
    ensures { (d : Reading) (b : Bound) → NamesOnly (IsCarried b) b → IsWhole (plain_of b.filter) → GateFits (gate_of d b) (asked_of_words d b) b.shape }
{}

/// A filter by the bit covers each kind of one table.
pub fn filter_covers()
    ensures { (d : Reading) (b : Bound) (gate : Gate) → has_one_table b.shape ≡ true → GateFits gate (asked_of_words d b) b.shape
        → CoversOnce (is_gated gate b) by_bit (answer_over d b) }
{}

/// Lists of the latest keys, of any length and by any hash, cover Distinct, where the key of a row tells what it prints.
pub fn distinct_covers()
    ensures { (cols : ℕ) (hash_row : Key → ℕ) (key : Row → Key) (d : Reading) (b : Bound) (gate : Gate) → b.shape ≡ shape.Distinct → GateFits gate (asked_of_words d b) b.shape
        → ((r s : Row) → key r ≡ key s → line b.printed (pos 0) (row_seen b r) ≡ line b.printed (pos 0) (row_seen b s))
        → CoversOnce (is_gated gate b) (least_recent cols hash_row key) (answer_over d b) }
{}

/// What a policy of each other kind of one pass may prune is enough for its cover.
pub fn kinds_of_one_pass()
    ensures top { (d : Reading) (b : Bound) (gate : Gate) (by : Col) (descending : Bool) (limit : ℕ) → b.shape ≡ shape.Top by descending limit → GateFits gate (asked_of_words d b) b.shape
        → (prunes : Policy) → PrunesBeaten descending limit (λ r. at (row_seen b r) by) prunes → CoversOnce (is_gated gate b) prunes (answer_over d b) }
    ensures group { (d : Reading) (b : Bound) (gate : Gate) (keys : List Col) (max : Bool) (value : Col) → b.shape ≡ shape.Group keys max value → GateFits gate (asked_of_words d b) b.shape
        → (prunes : Policy) → PrunesMatched max (λ r. at_each (row_seen b r) keys) (λ r. at (row_seen b r) value) prunes → CoversOnce (is_gated gate b) prunes (answer_over d b) }
    ensures skyline { (d : Reading) (b : Bound) (gate : Gate) (dims : List Dim) → b.shape ≡ shape.Skyline dims → GateFits gate (asked_of_words d b) b.shape
        → (prunes : Policy) → PrunesDominated (λ s r. dominates words.compare dims (row_seen b s) (row_seen b r)) prunes → CoversOnce (is_gated gate b) prunes (answer_over d b) }
{}

/// And so it is in the kinds of two passes.
pub fn kinds_of_two_passes()
    ensures having { (d : Reading) (b : Bound) (gate : Gate) (keys : List Col) (sum : Option Col) (above : ℤ) → b.shape ≡ shape.Having keys sum above → GateFits gate (asked_of_words d b) b.shape
        → (prunes : Policy) → PrunesSmall (is_summed gate b (λ r. amount words sum (row_seen b r))) (λ r. at_each (row_seen b r) keys) (λ r. amount words sum (row_seen b r)) above prunes
        → CoversTwice (is_summed gate b (λ r. amount words sum (row_seen b r))) prunes (answer_over d b) }
    ensures join { (d : Reading) (b : Bound) (gate : Gate) (left right : Col) → b.shape ≡ shape.Join left right → left.side ≡ 0 → right.side ≡ 1 → GateFits gate (asked_of_words d b) b.shape
        → (prunes : Policy) (key : Row → ℤ) → ((r : Row) → r.side ≡ 0 → key r ≡ at (row_seen b r) left) → ((r : Row) → r.side ≡ 1 → key r ≡ at (row_seen b r) right)
        → PrunesAlone key prunes → CoversTwice (is_gated gate b) prunes (answer_over d b) }
    ensures semi { (d : Reading) (b : Bound) (gate : Gate) (outer inner : Col) → b.shape ≡ shape.Semi outer inner → GateFits gate (asked_of_words d b) b.shape
        → (prunes : Policy) (key : Row → ℤ) → ((r : Row) → r.side ≡ 0 → key r ≡ at (row_seen b r) outer) → ((r : Row) → r.side ≡ 1 → key r ≡ at (row_seen b r) inner)
        → PrunesUnmatched key prunes → CoversTwice (is_gated gate b) prunes (answer_over d b) }
{}
