ghost use Rattle.std.specs.Prelude.{◌≡◌, ◌<◌, ◌^◌, ◌++◌, ◌∷◌, [], IfOk, OnOk, OnErr, length};
ghost use Rattle.ch_flat.specs.Flat.{pick, with_row};

use ch_cells::Memory;
use ch_flat::Rows;
use std::alloc::Global;

/// A key with a value behind it.
fn with_value(alloc: Global, key: &[i64], value: i64) -> Result<Vec<i64>, Memory>
    ensures { IfOk result (λ words. words.items ≡ key.now ++ value ∷ []) }
{
    let mut words = Vec::with_capacity(alloc, key.len() + 1)?;
    words.extend_from_slice(key)?;
    words.push(value)?;
    Ok(words)
}

/// Adds the line of a key and a value: the words at some places of both.
pub(crate) fn push_line(
    alloc: Global,
    lines: &mut Rows,
    key: &[i64],
    value: i64,
    places: &[usize],
) -> Result<(), Memory>
    requires width { length places.now ≡ lines.old.width }
    requires room { length lines.old.rows < 2 ^ 63 }
    ensures ok { OnOk result (lines.new ≡ with_row lines.old (pick (key.now ++ value ∷ []) places.now)) }
    ensures err { OnErr result (lines.new ≡ lines.old) }
{
    let words = with_value(alloc, key, value)?;
    lines.push_picked(words.as_slice(), places)
}
