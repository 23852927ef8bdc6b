ghost use Rattle.std.specs.Prelude.{◌≡◌, ◌<◌, ℕ};
ghost use Rattle.ch_ir.specs.Hash.{hash_of, hash_first, hash_step};

const GOLDEN: u64 = 0x9E37_79B9_7F4A_7C15;

/// The hash state before the first word, for callers that have no slice of words.
pub fn hash_start(seed: u64) -> u64
    ensures { result ≡ hash_first seed }
{
    seed.wrapping_mul(GOLDEN).wrapping_add(1)
}

/// The hash state after one more word. The hash is the state after the last word, modulo `n`.
#[tactic(auto, unfolding(crate::specs::Hash::hash_step))]
pub fn hash_more(state: u64, word: i64) -> u64
    ensures { result ≡ hash_step state word }
{
    let mixed = (state ^ word.cast_unsigned()).wrapping_mul(GOLDEN);
    mixed ^ (mixed >> 32)
}

/// The hash of the words, below `n`.
#[tactic(auto, unfolding(crate::specs::Hash::hash_of))]
pub fn hash_words(seed: u64, words: &[i64], n: u64) -> u64
    requires { 0 < n }
    ensures value { result ≡ hash_of seed words.now n }
    ensures below { result < n }
{
    let mut state = hash_start(seed);
    for word in words {
        state = hash_more(state, *word);
    }
    state % n
}
