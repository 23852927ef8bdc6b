ghost use Rattle.std.specs.Prelude.{◌≡◌, IfOk};
ghost use Rattle.ch_audit_laws.specs.Said.{refused_line};

use ch_cells::{Bytes, Memory};
use std::alloc::Global;

/// The line that refuses a trace.
pub fn refused_line(alloc: Global, line: usize) -> Result<Bytes, Memory>
    ensures { IfOk result (λ said. said ≡ refused_line line) }
{
    let said = format!(in alloc; "trace refused: line {line}\n")?;
    Ok(Bytes::from_vec(said.into_bytes()))
}
