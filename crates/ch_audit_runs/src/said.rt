ghost use Rattle.std.specs.Prelude.{◌≡◌, ◌++◌, map, IfOk, OnOk};
ghost use Rattle.std.specs.Fmt.{decimal};
ghost use Rattle.ch_audit_laws.specs.Said.{row_line};
ghost use Rattle.ch_audit_runs.specs.Arrivals.{name_of};
ghost use Rattle.ch_audit_runs.specs.Checking.{said_text};

use crate::arrival::Arrival;
use ch_cells::{Bytes, Memory};
use itoa::Buffer;
use std::alloc::Global;

fn push_bytes(text: &mut Vec<u8>, bytes: &[u8]) -> Result<(), Memory>
    ensures { OnOk result (text.new.items ≡ text.old.items ++ bytes.now) }
{
    text.extend_from_slice(bytes)?;
    Ok(())
}

fn push_number(text: &mut Vec<u8>, n: u32) -> Result<(), Memory>
    ensures { OnOk result (text.new.items ≡ text.old.items ++ decimal n) }
{
    let mut digits = Buffer::new();
    push_bytes(text, digits.format(n).as_bytes())
}

fn push_row(text: &mut Vec<u8>, row: &Arrival) -> Result<(), Memory>
    ensures { OnOk result (text.new.items ≡ text.old.items ++ row_line (name_of row.now)) }
{
    push_bytes(text, b"row ")?;
    push_number(text, u32::from(row.worker))?;
    push_bytes(text, b" ")?;
    push_number(text, row.number)?;
    push_bytes(text, b"\n")
}

/// What is said of a trace that is accepted.
pub(crate) fn accepted(
    alloc: Global,
    done: bool,
    events: usize,
    rows: &[Arrival],
) -> Result<Bytes, Memory>
    ensures { IfOk result (λ said. said ≡ said_text done events (map name_of rows.now)) }
{
    let ending = if done { "done" } else { "open" };
    let received = rows.len();
    let front = format!(in alloc; "accepted {ending} events={events} received={received}\n")?;
    let mut text = front.into_bytes();
    for row in rows {
        push_row(&mut text, row)?;
    }
    Ok(Bytes::from_vec(text))
}
