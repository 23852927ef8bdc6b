ghost use Rattle.std.specs.Prelude.{◌≡◌, ◌<◌, ◌≤◌, ◌+◌, ◌^◌, ◌++◌, ℕ, List, [], ◌∷◌, length, true, IfNone};
ghost use Rattle.ch_ir.specs.Machine.{cells_of};
ghost use Rattle.ch_ir.specs.Measure.{access_end, accesses_end};
ghost use Rattle.ch_ir.specs.Rules.{access_operands, access_refusal, accesses_refusal, after_access, after_accesses, after_assign, after_old, assign_refusal, first_unknown, has_shape, key_words, old_refusal, range_refusal, reach_refusal, test_fits, update_operand, update_operands, with_array, with_arrays};
ghost use Rattle.ch_verify.specs.Fits.{AllConstFit, AllAccessesFit};
ghost use Rattle.ch_verify.specs.Known.{known_of, used_of};

use crate::known::{FLAG, WHOLE, interval_of, is_known, learn, unknown};
use ch_ir::{Access, Array, Interval, Operand, Refused, Test, Update, cells_of, entries_of};

#[tactic(auto, using(crate::proofs::Operands::first_append))]
fn unknown_among(operands: &[Operand], known: &[Option<Interval>]) -> Option<u32>
    ensures word { result ≡ first_unknown (known_of known.now) operands.now }
    ensures fits { IfNone result (AllConstFit operands.now) }
{
    for a in operands {
        if let Some(word) = unknown(*a, known) {
            return Some(word);
        }
    }
    None
}

fn unknown_of_update(update: Update, known: &[Option<Interval>]) -> Option<u32>
    ensures word { result ≡ first_unknown (known_of known.now) (update_operand update) }
    ensures fits { AllConstFit (update_operand update) }
{
    match update {
        Update::Keep => None,
        Update::Put(a) => unknown(a, known),
        Update::AddSat(a) => unknown(a, known),
        Update::Min(a) => unknown(a, known),
        Update::Max(a) => unknown(a, known),
        Update::Or(a) => unknown(a, known),
    }
}

#[tactic(auto, using(crate::proofs::Operands::first_append, crate::proofs::Operands::fits_append))]
fn unknown_in_updates(updates: &[Update], known: &[Option<Interval>]) -> Option<u32>
    ensures word { result ≡ first_unknown (known_of known.now) (update_operands updates.now) }
    ensures fits { IfNone result (AllConstFit (update_operands updates.now)) }
{
    for update in updates {
        if let Some(word) = unknown_of_update(*update, known) {
            return Some(word);
        }
    }
    None
}

/// The first word that the updates of an access read and that has no value.
#[tactic(auto, using(crate::proofs::Operands::first_append, crate::proofs::Operands::fits_append))]
fn unknown_in_both(x: &Access, known: &[Option<Interval>]) -> Option<u32>
    ensures word { result ≡ first_unknown (known_of known.now) (update_operands x.now.yes ++ update_operands x.now.no) }
    ensures fits { IfNone result (AllConstFit (update_operands x.now.yes ++ update_operands x.now.no)) }
{
    match unknown_in_updates(x.yes.as_slice(), known) {
        Some(word) => Some(word),
        None => unknown_in_updates(x.no.as_slice(), known),
    }
}

#[tactic(auto, using(crate::proofs::Operands::first_append, crate::proofs::Operands::fits_append))]
fn unknown_after_guard(x: &Access, known: &[Option<Interval>]) -> Option<u32>
    ensures word { result ≡ first_unknown (known_of known.now) (x.now.key ++ (update_operands x.now.yes ++ update_operands x.now.no)) }
    ensures fits { IfNone result (AllConstFit (x.now.key ++ (update_operands x.now.yes ++ update_operands x.now.no))) }
{
    match unknown_among(x.key.as_slice(), known) {
        Some(word) => Some(word),
        None => unknown_in_both(x, known),
    }
}

#[tactic(auto, using(crate::proofs::Operands::first_append))]
fn unknown_after_index(x: &Access, known: &[Option<Interval>]) -> Option<u32>
    ensures word { result ≡ first_unknown (known_of known.now) (x.now.guard ∷ x.now.key ++ (update_operands x.now.yes ++ update_operands x.now.no)) }
    ensures fits { IfNone result (AllConstFit (x.now.guard ∷ x.now.key ++ (update_operands x.now.yes ++ update_operands x.now.no))) }
{
    match unknown(x.guard, known) {
        Some(word) => Some(word),
        None => unknown_after_guard(x, known),
    }
}

/// The first word that an access reads and that has no value: of the index, the guard, the key, and the updates.
#[tactic(auto, using(crate::proofs::Operands::first_append))]
fn unknown_of_access(x: &Access, known: &[Option<Interval>]) -> Option<u32>
    ensures word { result ≡ first_unknown (known_of known.now) (access_operands x.now) }
    ensures fits { IfNone result (AllConstFit (access_operands x.now)) }
{
    match unknown(x.index, known) {
        Some(word) => Some(word),
        None => unknown_after_index(x, known),
    }
}

fn key_words(test: Test) -> u32
    ensures { result ≡ key_words test }
{
    match test {
        Test::Always => 0,
        Test::KeyEq(n) => n,
        Test::KeyEqOrFree(n) => n,
        Test::Less(_) => 1,
    }
}

fn test_fits(test: Test, cells: u32) -> bool
    ensures { result ≡ test_fits test cells }
{
    match test {
        Test::Always => true,
        Test::KeyEq(n) => n < cells,
        Test::KeyEqOrFree(n) => n < cells,
        Test::Less(c) => c < cells,
    }
}

/// Whether the array is there with entries and cells, and the updates, the key and the test suit it.
fn has_shape(arrays: &[Array], x: &Access) -> bool
    ensures { result ≡ has_shape arrays.now x.now }
{
    let entries = entries_of(arrays, x.array);
    let cells = cells_of(arrays, x.array);
    0 < entries
        && 0 < cells
        && x.yes.len() == cells as usize
        && x.no.len() == cells as usize
        && x.key.len() == key_words(x.test) as usize
        && test_fits(x.test, cells)
}

fn range_refusal(stage: u32, interval: Interval, len: u32) -> Option<Refused>
    ensures { result ≡ range_refusal stage interval len }
{
    if 0 <= interval.low && interval.high < i64::from(len) {
        None
    } else {
        Some(Refused::IndexRange {
            stage,
            low: interval.low,
            high: interval.high,
            len,
        })
    }
}

fn is_used(used: &[bool], array: u32) -> bool
    ensures { result ≡ used_of used.now array }
{
    (array as usize) < used.len() && used[array as usize]
}

fn use_array(used: &mut [bool], array: u32)
    requires { array < length used.old }
    ensures { used_of used.new ≡ with_array (used_of used.old) array }
{
    used[array as usize] = true;
}

/// The first rule that what an access reads breaks.
fn reach_refusal(
    arrays: &[Array],
    stage: u32,
    used: &[bool],
    known: &[Option<Interval>],
    x: &Access,
) -> Option<Refused>
    ensures rule { result ≡ reach_refusal arrays.now stage (used_of used.now) (known_of known.now) x.now }
    ensures fits { IfNone result (AllConstFit (access_operands x.now)) }
    ensures shape { IfNone result (has_shape arrays.now x.now ≡ true) }
{
    if is_used(used, x.array) {
        return Some(Refused::TwoAccesses { stage });
    }
    if !has_shape(arrays, x) {
        return Some(Refused::Shape { stage });
    }
    if let Some(word) = unknown_of_access(x, known) {
        return Some(Refused::Word { stage, word });
    }
    range_refusal(
        stage,
        interval_of(x.index, known),
        entries_of(arrays, x.array),
    )
}

/// Assigns the old words in turn.
fn old_refusal(stage: u32, old: u32, cells: u32, known: &mut [Option<Interval>]) -> Option<Refused>
    requires room { old + cells ≤ length known.old }
    requires small { length known.old < 2 ^ 32 }
    ensures rule { result ≡ old_refusal stage old cells (known_of known.old) }
    ensures known { IfNone result (known_of known.new ≡ after_old old cells (known_of known.old)) }
{
    for at in 0..cells {
        let word = old + at;
        if is_known(word, known) {
            return Some(Refused::AssignedTwice { stage, word });
        }
        learn(known, word, WHOLE);
    }
    None
}

/// Assigns the old words and hit.
fn assign_refusal(
    stage: u32,
    cells: u32,
    x: &Access,
    known: &mut [Option<Interval>],
) -> Option<Refused>
    requires room { x.now.old + cells ≤ length known.old }
    requires hit { x.now.hit < length known.old }
    requires small { length known.old < 2 ^ 32 }
    ensures rule { result ≡ assign_refusal stage cells (known_of known.old) x.now }
    ensures known { IfNone result (known_of known.new ≡ after_assign cells x.now (known_of known.old)) }
{
    if let Some(refused) = old_refusal(stage, x.old, cells, known) {
        return Some(refused);
    }
    if is_known(x.hit, known) {
        return Some(Refused::AssignedTwice { stage, word: x.hit });
    }
    learn(known, x.hit, FLAG);
    None
}

/// The first rule that an access breaks. Where there is none, what it assigns is known then, and its array is used.
#[tactic(auto, using(crate::proofs::Ends::shape_there))]
fn access_refusal(
    arrays: &[Array],
    stage: u32,
    used: &mut [bool],
    known: &mut [Option<Interval>],
    x: &Access,
) -> Option<Refused>
    requires room { access_end arrays.now x.now ≤ length known.old }
    requires small { length known.old < 2 ^ 32 }
    requires flags { length used.old ≡ length arrays.now }
    ensures rule { result ≡ access_refusal arrays.now stage (used_of used.old) (known_of known.old) x.now }
    ensures known { IfNone result (known_of known.new ≡ after_access arrays.now x.now (known_of known.old)) }
    ensures used { IfNone result (used_of used.new ≡ with_array (used_of used.old) x.now.array) }
    ensures fits { IfNone result (AllConstFit (access_operands x.now)) }
{
    if let Some(refused) = reach_refusal(arrays, stage, used, known, x) {
        return Some(refused);
    }
    if let Some(refused) = assign_refusal(stage, cells_of(arrays, x.array), x, known) {
        return Some(refused);
    }
    use_array(used, x.array);
    None
}

/// The first rule that the accesses of a stage break.
pub fn accesses_refusal(
    arrays: &[Array],
    stage: u32,
    used: &mut [bool],
    known: &mut [Option<Interval>],
    accesses: &[Access],
) -> Option<Refused>
    requires room { accesses_end arrays.now accesses.now ≤ length known.old }
    requires small { length known.old < 2 ^ 32 }
    requires flags { length used.old ≡ length arrays.now }
    ensures rule { result ≡ accesses_refusal arrays.now stage (used_of used.old) (known_of known.old) accesses.now }
    ensures known { IfNone result (known_of known.new ≡ after_accesses arrays.now accesses.now (known_of known.old)) }
    ensures used { IfNone result (used_of used.new ≡ with_arrays (used_of used.old) accesses.now) }
    ensures fits { IfNone result (AllAccessesFit accesses.now) }
{
    match accesses {
        [] => None,
        [x] => access_refusal(arrays, stage, used, known, x),
        _ => Some(Refused::TwoAccesses { stage }),
    }
}
