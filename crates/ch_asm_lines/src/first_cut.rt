ghost use Rattle.std.specs.Prelude.{◌≡◌, ◌<◌, Some, None, length, MatchOption, IfSome};
ghost use Rattle.ch_asm_lines.specs.Reading.{cut_of};

/// What stands before the first of these bytes, and what stands behind it.
pub fn cut(byte: u8, text: &[u8]) -> Option<(&[u8], &[u8])>
    ensures parts { MatchOption result (cut_of byte text.now ≡ None) (λ parts. cut_of byte text.now ≡ Some (parts.0.now, parts.1.now)) }
    ensures shorter { IfSome result (λ parts. length parts.1.now < length text.now) }
{
    for at in 0..text.len() {
        if text[at] == byte {
            return Some((&text[..at], &text[at + 1..]));
        }
    }
    None
}
