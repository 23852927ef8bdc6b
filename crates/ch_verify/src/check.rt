ghost use Rattle.std.specs.Prelude.{◌≡◌, ◌≢◌, ◌<◌, ◌≤◌, ◌-◌, ◌^◌, Some, None, length, vec_len, IfErr, IfNone, IfOk};
ghost use Rattle.ch_ir.specs.Measure.{first_refusal, limit_refusal, most_ops, over, stages_end};
ghost use Rattle.ch_ir.specs.Rules.{inputs, none_used, rule_refusal, verdict_refusal};
ghost use Rattle.ch_verify.specs.Fits.{AllStagesFit};
ghost use Rattle.ch_verify.specs.Known.{known_of, used_of};

use crate::checked::Checked;
use crate::known::{WHOLE, is_known};
use crate::sizes::measure;
use crate::stages::stages_refusal;
use ch_cells::Memory;
use ch_ir::{Interval, LimitName, Profile, Program, Refused, Sizes};
use std::alloc::Global;

fn over(which: LimitName, need: u64, have: u32) -> Option<Refused>
    ensures limit { result ≡ over which need have }
    ensures within { IfNone result (need ≤ have) }
{
    let have = u64::from(have);
    if have < need {
        Some(Refused::Limit { which, need, have })
    } else {
        None
    }
}

/// The first limit of the profile that the sizes exceed.
fn limit_refusal(sizes: Sizes, profile: &Profile) -> Option<Refused>
    ensures limit { result ≡ limit_refusal sizes profile.now }
    ensures small { IfNone result (sizes.words < 2 ^ 32) }
{
    if let Some(refused) = over(LimitName::Width, u64::from(sizes.width), profile.width) {
        return Some(refused);
    }
    if let Some(refused) = over(LimitName::Cells, sizes.cells, profile.cells) {
        return Some(refused);
    }
    if let Some(refused) = over(LimitName::Words, sizes.words, profile.words) {
        return Some(refused);
    }
    if let Some(refused) = over(LimitName::Stages, u64::from(sizes.stages), profile.stages) {
        return Some(refused);
    }
    over(LimitName::Ops, u64::from(sizes.ops), profile.ops)
}

fn input_interval(word: usize, width: u32) -> Option<Interval>
    ensures { result ≡ inputs width word }
{
    if word < width as usize {
        Some(WHOLE)
    } else {
        None
    }
}

/// What is known before the first stage, of so many words.
fn first_known(alloc: Global, width: u32, words: usize) -> Result<Vec<Option<Interval>>, Memory>
    requires { width ≤ words }
    ensures known { IfOk result (λ v. known_of v.items ≡ inputs width) }
    ensures len { IfOk result (λ v. vec_len v ≡ words) }
{
    let mut known = Vec::new(alloc);
    for word in 0..words {
        known.push(input_interval(word, width))?;
    }
    Ok(known)
}

/// No array is used.
fn first_used(alloc: Global, arrays: usize) -> Result<Vec<bool>, Memory>
    ensures used { IfOk result (λ v. used_of v.items ≡ none_used) }
    ensures len { IfOk result (λ v. vec_len v ≡ arrays) }
{
    let mut used = Vec::new(alloc);
    for _array in 0..arrays {
        used.push(false)?;
    }
    Ok(used)
}

/// The first rule that the program breaks; the words that it names are below `words`.
#[tactic(auto, unfolding(ch_ir::specs::Rules::rule_refusal))]
fn rule_refusal(alloc: Global, program: &Program, words: usize) -> Result<Option<Refused>, Memory>
    requires width { program.now.width ≤ words }
    requires room { stages_end program.now.arrays program.now.stages ≤ words }
    requires small { words < 2 ^ 32 }
    requires many { length program.now.stages < 2 ^ 32 }
    ensures rule { IfOk result (λ refusal. refusal ≡ rule_refusal program.now) }
    ensures fits { IfOk result (λ refusal. IfNone refusal (AllStagesFit program.now.stages)) }
{
    let mut known = first_known(alloc, program.width, words)?;
    let mut used = first_used(alloc, program.arrays.len())?;
    let found = stages_refusal(
        program.arrays.as_slice(),
        program.stages.as_slice(),
        used.as_mut_slice(),
        known.as_mut_slice(),
    );
    if let Some(refused) = found {
        return Ok(Some(refused));
    }
    Ok(verdict_refusal(
        program.stages.len() as u32,
        known.as_slice(),
        program.verdict,
    ))
}

fn verdict_refusal(stages: u32, known: &[Option<Interval>], verdict: u32) -> Option<Refused>
    ensures { result ≡ verdict_refusal stages (known_of known.now) verdict }
{
    if is_known(verdict, known) {
        None
    } else {
        Some(Refused::Word {
            stage: stages,
            word: verdict,
        })
    }
}

/// Checks a program against the limits of the profile, and then against the rules. A refused program is given up.
#[tactic(auto, unfolding(ch_ir::specs::Measure::sizes_of))]
pub fn verify(alloc: Global, program: Program, profile: &Profile) -> Result<Checked, Refused>
    requires stages { length program.stages < 2 ^ 32 - 1 }
    requires ops { most_ops program.stages < 2 ^ 32 - 1 }
    ensures accepted { IfOk result (λ checked. (checked ≡ program) × (first_refusal profile.now program ≡ None)) }
    ensures refused { IfErr result (λ e. e ≢ Refused.Memory → first_refusal profile.now program ≡ Some e) }
{
    let sizes = measure(&program);
    if let Some(refused) = limit_refusal(sizes, profile) {
        return Err(refused);
    }
    match rule_refusal(alloc, &program, sizes.words as usize) {
        Ok(None) => Ok(Checked::new(program)),
        Ok(Some(refused)) => Err(refused),
        Err(_) => Err(Refused::Memory),
    }
}
