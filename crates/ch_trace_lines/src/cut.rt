ghost use Rattle.std.specs.Prelude.{◌≡◌, ◌==◌, ◌∷◌, [], ◌<◌, length, MatchOption, IfSome};
ghost use Rattle.std.specs.List.{position, slice_split};
ghost use Rattle.ch_trace_lines.specs.Fields.{Are};

fn place_of(byte: u8, text: &[u8]) -> Option<usize>
    ensures { result ≡ position (λ b. b == byte) text.now }
{
    text.iter().position(|b| *b == byte)
}

/// What stands before the first of these bytes, and what stands behind it.
#[tactic(auto, using(crate::proofs::Splits::split_there, crate::proofs::Splits::split_nowhere, crate::proofs::Splits::place_within))]
fn cut(byte: u8, text: &[u8]) -> Option<(&[u8], &[u8])>
    ensures parts { MatchOption result (slice_split (λ b. b == byte) text.now ≡ text.now ∷ []) (λ parts. slice_split (λ b. b == byte) text.now ≡ parts.0.now ∷ slice_split (λ b. b == byte) parts.1.now) }
    ensures shorter { IfSome result (λ parts. length parts.1.now < length text.now) }
{
    match place_of(byte, text) {
        Some(at) => Some((&text[..at], &text[at + 1..])),
        None => None,
    }
}

/// The first line of a text without its line feed, and the text behind it. There is none where no line feed is left.
pub fn cut_line(text: &[u8]) -> Option<(&[u8], &[u8])>
    ensures parts { MatchOption result (slice_split (λ b. b == 10) text.now ≡ text.now ∷ []) (λ parts. slice_split (λ b. b == 10) text.now ≡ parts.0.now ∷ slice_split (λ b. b == 10) parts.1.now) }
    ensures shorter { IfSome result (λ parts. length parts.1.now < length text.now) }
{
    cut(b'\n', text)
}

/// The fields of a line, where they are few enough.
#[derive(Clone, Copy)]
pub(crate) enum Fields<'a> {
    One(&'a [u8]),
    Two(&'a [u8], &'a [u8]),
    Three(&'a [u8], &'a [u8], &'a [u8]),
    Four(&'a [u8], &'a [u8], &'a [u8], &'a [u8]),
    Five(&'a [u8], &'a [u8], &'a [u8], &'a [u8], &'a [u8]),
    More,
}

/// Cuts a line at each space.
#[tactic(auto, using(crate::proofs::Splits::split_some))]
pub(crate) fn cut_fields(line: &[u8]) -> Fields<'_>
    ensures { Are result (slice_split (λ b. b == 32) line.now) }
{
    let Some((first, rest)) = cut(b' ', line) else {
        return Fields::One(line);
    };
    let Some((second, more)) = cut(b' ', rest) else {
        return Fields::Two(first, rest);
    };
    let Some((third, others)) = cut(b' ', more) else {
        return Fields::Three(first, second, more);
    };
    let Some((fourth, last)) = cut(b' ', others) else {
        return Fields::Four(first, second, third, others);
    };
    match cut(b' ', last) {
        None => Fields::Five(first, second, third, fourth, last),
        Some(_) => Fields::More,
    }
}
