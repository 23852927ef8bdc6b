ghost use Rattle.std.specs.Prelude.{◌≡◌, ◌<◌, ◌^◌, ◌||◌, ◌++◌, ◌∷◌, [], if◌then◌else◌, ℕ, length, slice_index_or, IfOk, OnOk, false};
ghost use Rattle.ch_bind.specs.Checks as spec;
ghost use Rattle.ch_bind.specs.Marks.{AreMarks};
ghost use Rattle.ch_bind.specs.References.{stands_at};

use crate::references::Reference;
use crate::scope::{Candidate, Found};
use ch_cells::{Listed, Memory};
use std::alloc::Global;

/// Marks a column, if it is one of this side.
fn mark(marks: &mut [bool], side: u8, found: Found)
    ensures { (at : ℕ) → at < length marks.old → slice_index_or marks.new at false ≡ (slice_index_or marks.old at false || stands_at side at found) }
{
    if let Found::At(col) = found {
        if col.side == side {
            if (col.at as usize) < marks.len() {
                marks[col.at as usize] = true;
            }
        }
    }
}

/// For each column of a side, whether it is named.
pub(crate) fn marks_of(
    alloc: Global,
    len: u32,
    side: u8,
    refs: &[Reference],
) -> Result<Vec<bool>, Memory>
    ensures { IfOk result (λ marks. AreMarks marks.items len side refs.now) }
{
    let mut marks = vec![in alloc; false; len as usize]?;
    for reference in refs {
        mark(marks.as_mut_slice(), side, reference.found);
    }
    Ok(marks)
}

fn is_kept(whole: bool, marks: &[bool], at: u32) -> bool
    requires { at < length marks.now }
    ensures { result ≡ (whole || slice_index_or marks.now at false) }
{
    whole || marks[at as usize]
}

fn push_if(kept: &mut Listed<u32>, is: bool, at: u32) -> Result<(), Memory>
    ensures { OnOk result (kept.new ≡ kept.old ++ (if is then at ∷ [] else [])) }
{
    if is { kept.push(at) } else { Ok(()) }
}

/// The columns of a table that the query names, ascending, or all.
pub(crate) fn carried_in(
    alloc: Global,
    table: &Candidate,
    side: u8,
    whole: bool,
    refs: &[Reference],
) -> Result<Listed<u32>, Memory>
    ensures carried { IfOk result (λ carried. carried ≡ spec.carried_in table.now side whole refs.now) }
    ensures few { IfOk result (λ carried. length carried < 2 ^ 32) }
{
    let len = table.header.len();
    let marks = marks_of(alloc, len, side, refs)?;
    let mut carried = Listed::new(alloc);
    for at in 0..len {
        let is = is_kept(whole, marks.as_slice(), at);
        push_if(&mut carried, is, at)?;
    }
    Ok(carried)
}
