ghost use Rattle.std.specs.Prelude.{◌≡◌, ◌<◌, ◌↔◌, ◌≤◌, [], ◌∷◌, length, take, drop, true, false, IsNone, IfSome, not};
ghost use Rattle.std.specs.List.{list_all};
ghost use Rattle.ch_lines.specs.Lines.{fields_of, is_blank, is_visible, ends_field, says};

use crate::line::Cut;

fn is_blank(byte: u8) -> bool
    ensures { result ≡ is_blank byte }
{
    byte == b' ' || byte == b'\t'
}

/// The line from its first byte on that is no blank.
fn trim_blanks(line: &[u8]) -> &[u8]
    ensures same { fields_of result.now ≡ fields_of line.now }
    ensures within { length result.now ≤ length line.now }
    ensures first { 0 < length result.now → ends_field result.now ≡ false }
{
    for at in 0..line.len() {
        if !is_blank(line[at]) {
            return &line[at..];
        }
    }
    &line[line.len()..]
}

/// The number of bytes before the first blank.
fn field_len(line: &[u8]) -> usize
    ensures visible { list_all is_visible (take result line.now) ≡ true }
    ensures within { result ≤ length line.now }
    ensures ended { ends_field (drop result line.now) ≡ true }
    ensures some { ends_field line.now ≡ false → 0 < result }
{
    for at in 0..line.len() {
        if is_blank(line[at]) {
            return at;
        }
    }
    line.len()
}

/// The first field, and the line after it. A field is a longest run of bytes other than space and tab.
pub fn next_field(line: &[u8]) -> Option<Cut<'_>>
    ensures field { IfSome result (λ cut. fields_of line.now ≡ cut.first.now ∷ fields_of cut.rest.now) }
    ensures some { IfSome result (λ cut. 0 < length cut.first.now) }
    ensures shorter { IfSome result (λ cut. length cut.rest.now < length line.now) }
    ensures end { IsNone result ↔ (fields_of line.now ≡ []) }
{
    let trimmed = trim_blanks(line);
    if trimmed.is_empty() {
        return None;
    }
    let len = field_len(trimmed);
    Some(Cut {
        first: &trimmed[..len],
        rest: &trimmed[len..],
    })
}

/// Whether the line says something: it has a field, and its first doesn't begin with `#`.
pub fn is_said(line: &[u8]) -> bool
    ensures { result ≡ says (fields_of line.now) }
{
    match next_field(line) {
        Some(cut) => cut.first[0] != b'#',
        None => false,
    }
}
