ghost use Rattle.std.specs.Prelude.{◌≡◌, ◌↔◌, IsTrue};

use ch_cells::Bytes;
use ch_trace_lines::Noted;

fn same_bytes(a: &Option<Bytes>, b: &Option<Bytes>) -> bool
    ensures { IsTrue result ↔ (a.now ≡ b.now) }
{
    match (a, b) {
        (None, None) => true,
        (Some(a), Some(b)) => a.as_slice() == b.as_slice(),
        (None, Some(_)) | (Some(_), None) => false,
    }
}

/// Whether a line says of its step what the run made of it: the same bytes, and the same fate.
pub fn agrees(said: &Noted, found: &Noted) -> bool
    ensures { IsTrue result ↔ ((said.now.bytes ≡ found.now.bytes) × (said.now.fate ≡ found.now.fate)) }
{
    same_bytes(&said.bytes, &found.bytes) && said.fate == found.fate
}
