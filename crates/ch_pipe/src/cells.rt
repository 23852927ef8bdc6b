ghost use Rattle.std.specs.Prelude.{◌≡◌, ◌≤◌, ◌+◌, length};
ghost use Rattle.ch_pipe.specs.Total.{UpdateRoom, UpdatesRoom, total_update, total_updates, total_store};

use crate::ops::value_of;
use ch_ir::Update;

/// What becomes of a cell.
fn updated(update: Update, cell: i64, words: &[i64]) -> i64
    requires { UpdateRoom (length words.now) update }
    ensures { result ≡ total_update words.now update cell }
{
    match update {
        Update::Keep => cell,
        Update::Put(a) => value_of(a, words),
        Update::AddSat(a) => cell.saturating_add(value_of(a, words)),
        Update::Min(a) => cell.min(value_of(a, words)),
        Update::Max(a) => cell.max(value_of(a, words)),
        Update::Or(a) => cell | value_of(a, words),
    }
}

/// Updates each cell of an entry.
pub fn update_cells(updates: &[Update], cells: &mut [i64], words: &[i64])
    requires room { UpdatesRoom (length words.now) updates.now }
    requires each { length updates.now ≡ length cells.old }
    ensures { cells.new ≡ total_updates words.now updates.now cells.old }
{
    for at in 0..updates.len() {
        cells[at] = updated(updates[at], cells[at], words);
    }
}

/// Writes cells into the words from a place on.
pub fn store(words: &mut [i64], to: usize, cells: &[i64])
    requires { to + length cells.now ≤ length words.old }
    ensures { words.new ≡ total_store to cells.now words.old }
{
    words[to..to + cells.len()].copy_from_slice(cells);
}
