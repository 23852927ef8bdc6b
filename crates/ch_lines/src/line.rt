ghost use Rattle.std.specs.Prelude.{◌≡◌, ◌<◌, ◌↔◌, ◌≤◌, [], ◌∷◌, length, take, drop, ◌++◌, ◌+◌, true, IsNone, IfSome};
ghost use Rattle.std.specs.List.{list_all};
ghost use Rattle.ch_lines.specs.Lines.{lines_of, without_cr, is_inner};

/// The first part of a list of bytes, and what is left after it.
#[derive(Clone, Copy, Debug)]
pub struct Cut<'a> {
    pub first: &'a [u8],
    pub rest: &'a [u8],
}

/// The line without a carriage return at its end.
fn trim_cr(line: &[u8]) -> &[u8]
    ensures { result.now ≡ without_cr line.now }
{
    if line.is_empty() {
        return line;
    }
    let last = line.len() - 1;
    if line[last] == b'\r' {
        &line[..last]
    } else {
        line
    }
}

/// The number of bytes before the first line feed.
fn line_len(text: &[u8]) -> usize
    ensures inner { list_all is_inner (take result text.now) ≡ true }
    ensures within { result ≤ length text.now }
    ensures ended { result < length text.now → text.now ≡ take result text.now ++ 10 ∷ drop (result + 1) text.now }
{
    for at in 0..text.len() {
        if text[at] == b'\n' {
            return at;
        }
    }
    text.len()
}

/// The first line, and the text after it. A line ends with a line feed, and a carriage return directly before that is cut;
/// the last line may lack its line feed.
pub fn next_line(text: &[u8]) -> Option<Cut<'_>>
    ensures line { IfSome result (λ cut. lines_of text.now ≡ cut.first.now ∷ lines_of cut.rest.now) }
    ensures shorter { IfSome result (λ cut. length cut.rest.now < length text.now) }
    ensures end { IsNone result ↔ (text.now ≡ []) }
{
    if text.is_empty() {
        return None;
    }
    let len = line_len(text);
    if len < text.len() {
        Some(Cut {
            first: trim_cr(&text[..len]),
            rest: &text[len + 1..],
        })
    } else {
        Some(Cut {
            first: text,
            rest: &text[len..],
        })
    }
}
