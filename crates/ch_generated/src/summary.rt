ghost use Rattle.std.specs.Prelude.{◌≡◌, IfOk};
ghost use Rattle.ch_generated.specs.Inputs as spec;
ghost use Rattle.ch_generated.specs.Request.{kind_name};

use crate::request::InputKind;
use ch_cells::{Bytes, Memory};
use std::alloc::Global;

pub fn kind_name(kind: InputKind) -> &'static str
    ensures { result.now ≡ kind_name kind }
{
    match kind {
        InputKind::Filter => "filter",
        InputKind::Distinct => "distinct",
        InputKind::Top => "top",
        InputKind::Group => "group",
        InputKind::Having => "having",
        InputKind::Join => "join",
        InputKind::Skyline => "skyline",
    }
}

/// The front of the line that sums up an answer of so many rows, whose text has so many bytes. The counts of its run come
/// behind it.
pub fn summary_front(alloc: Global, kind: InputKind, rows: u64, bytes: u64) -> Result<Bytes, Memory>
    ensures { IfOk result (λ text. text ≡ spec.summary_front kind rows bytes) }
{
    let name = kind_name(kind);
    let text = format!(in alloc; "kind={name} answer_rows={rows} answer_bytes={bytes} ")?;
    Ok(Bytes::from_vec(text.into_bytes()))
}
