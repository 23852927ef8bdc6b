ghost use Rattle.std.specs.Prelude.{◌≡◌, ◌≤◌, ◌^◌};
ghost use Rattle.ch_asm_lines.specs.Numbers.{word_of, seed_of, constant_of, negative};

use ch_numbers::natural;

#[tactic(auto, unfolding(crate::specs::Numbers::word_of))]
pub(crate) fn read_word(text: &[u8]) -> Option<u32>
    ensures { result ≡ word_of text.now }
{
    match natural(u64::from(u32::MAX), text) {
        Some(n) => Some(n as u32),
        None => None,
    }
}

#[tactic(auto, unfolding(crate::specs::Numbers::seed_of))]
pub(crate) fn read_seed(text: &[u8]) -> Option<u64>
    ensures { result ≡ seed_of text.now }
{
    natural(u64::MAX, text)
}

/// The negative number of this magnitude. There is none of 0.
fn negative(n: u64) -> Option<i64>
    requires { n ≤ 2 ^ 63 }
    ensures { result ≡ negative n }
{
    if n == 0 {
        None
    } else {
        Some(-1 - (n - 1) as i64)
    }
}

#[tactic(auto, unfolding(crate::specs::Numbers::constant_of))]
pub(crate) fn read_constant(text: &[u8]) -> Option<i64>
    ensures { result ≡ constant_of text.now }
{
    match text {
        [] => None,
        [b'-', digits @ ..] => match natural(1 << 63, digits) {
            Some(n) => negative(n),
            None => None,
        },
        _ => match natural(i64::MAX as u64, text) {
            Some(n) => Some(n as i64),
            None => None,
        },
    }
}
