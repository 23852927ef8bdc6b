ghost use Rattle.std.specs.Prelude.{◌≡◌, IfOk};
ghost use Rattle.cheetah_gen_words.specs.Summary.{rows_in, summary};

use ch_cells::{Bytes, Memory};
use ch_generated::{InputKind, summary_front};
use std::alloc::Global;

/// The rows of an answer, each of which is a line behind the header's. A text of numbers has no other ends of lines.
fn rows_in(text: &[u8]) -> u64
    ensures { result ≡ rows_in text.now }
{
    let lines = text.iter().filter(|byte| **byte == b'\n').count();
    lines.saturating_sub(1) as u64
}

/// The line that sums up an answer.
pub fn summary(alloc: Global, kind: InputKind, text: &[u8], counts: &[u8]) -> Result<Bytes, Memory>
    ensures { IfOk result (λ line. line ≡ summary kind text.now counts.now) }
{
    let front = summary_front(alloc, kind, rows_in(text), text.len() as u64)?;
    let mut line = front.into_vec();
    line.extend_from_slice(counts)?;
    Ok(Bytes::from_vec(line))
}
