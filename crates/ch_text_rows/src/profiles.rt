//! Profiles and hashes.
use ch_ir::{Profile, default_profile, hash_words, read_profile};
use std::alloc::Global;
use std::str;

/// The settings in the order of a profile's numbers.
const NAMES: [&str; 17] = [
    "stages",
    "cells",
    "ops",
    "words",
    "width",
    "window",
    "distinct_rows",
    "distinct_cols",
    "group_rows",
    "group_cols",
    "top_steps",
    "top_gap",
    "sketch_hashes",
    "sketch_cells",
    "bloom_hashes",
    "bloom_cells",
    "skyline_points",
];

/// A profile's numbers in their order.
fn numbers(profile: &Profile) -> [u32; 17] {
    [
        profile.stages,
        profile.cells,
        profile.ops,
        profile.words,
        profile.width,
        profile.window,
        profile.distinct_rows,
        profile.distinct_cols,
        profile.group_rows,
        profile.group_cols,
        profile.top_steps,
        profile.top_gap,
        profile.sketch_hashes,
        profile.sketch_cells,
        profile.bloom_hashes,
        profile.bloom_cells,
        profile.skyline_points,
    ]
}

/// The settings that aren't the default ones.
fn changed(alloc: Global, profile: &Profile) -> anyhow::Result<String> {
    let mut text = String::from_str(alloc, "settings")?;
    let (found, before) = (numbers(profile), numbers(&default_profile()));
    for at in 0..17 {
        if found[at] != before[at] {
            let setting = format!(in alloc; " {} {}", NAMES[at], found[at])?;
            text.push_str(setting.as_str())?;
        }
    }
    Ok(text)
}

/// The settings that a text changes, or why it is no profile.
pub(crate) fn settings(alloc: Global, text: &[u8]) -> anyhow::Result<String> {
    if text.len() > 1_000_000 {
        return Ok(String::from_str(alloc, "too long")?);
    }
    match read_profile(text) {
        Ok(profile) => changed(alloc, &profile),
        Err(error) => Ok(format!(in alloc; "{error}")?),
    }
}

pub(crate) fn default_settings(alloc: Global) -> anyhow::Result<String> {
    Ok(format!(in alloc; "{:?}", default_profile())?)
}

/// The hash of words by a seed, modulo 2^64 - 1, 32 and 4096: first the seed, then the words.
pub(crate) fn hash(alloc: Global, said: &[u8]) -> anyhow::Result<String> {
    let said = str::from_utf8(said)?;
    let (seed, rest) = said.split_once(' ').unwrap_or((said, ""));
    let seed = seed.parse::<u64>()?;
    let mut words = Vec::new(alloc);
    for word in rest.split(' ').filter(|word| !word.is_empty()) {
        words.push(word.parse::<i64>()?)?;
    }
    let words = words.as_slice();
    let whole = hash_words(seed, words, u64::MAX);
    let (bits, cells) = (hash_words(seed, words, 32), hash_words(seed, words, 4096));
    Ok(format!(in alloc; "{whole:016x} {bits} {cells}")?)
}
