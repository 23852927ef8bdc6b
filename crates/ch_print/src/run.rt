ghost use Rattle.std.specs.Prelude.{◌≡◌, ◌++◌, ◌∷◌, [], IfOk, OnOk};
ghost use Rattle.std.specs.Fmt.{decimal};
ghost use Rattle.ch_print.specs.RunTexts.{behind_commas, counts_line, flow_line, flow_numbers, named, numbers_text, partial_line, report};

use ch_cells::{Bytes, Counts, Memory, OpenFlow};
use itoa::Buffer;
use std::alloc::Global;

fn push_bytes(text: &mut Vec<u8>, bytes: &[u8]) -> Result<(), Memory>
    ensures { OnOk result (text.new.items ≡ text.old.items ++ bytes.now) }
{
    text.extend_from_slice(bytes)?;
    Ok(())
}

fn push_number(text: &mut Vec<u8>, n: u64) -> Result<(), Memory>
    ensures { OnOk result (text.new.items ≡ text.old.items ++ decimal n) }
{
    let mut digits = Buffer::new();
    push_bytes(text, digits.format(n).as_bytes())
}

/// Writes a name and a number behind it.
fn push_named(text: &mut Vec<u8>, name: &[u8], n: u64) -> Result<(), Memory>
    ensures { OnOk result (text.new.items ≡ text.old.items ++ named name.now n) }
{
    push_bytes(text, name)?;
    push_number(text, n)
}

/// Writes numbers, each behind a `,`.
fn push_others(text: &mut Vec<u8>, numbers: &[u32]) -> Result<(), Memory>
    ensures { OnOk result (text.new.items ≡ text.old.items ++ behind_commas numbers.now) }
{
    for number in numbers {
        push_bytes(text, b",")?;
        push_number(text, u64::from(*number))?;
    }
    Ok(())
}

fn push_numbers(text: &mut Vec<u8>, numbers: &[u32]) -> Result<(), Memory>
    ensures { OnOk result (text.new.items ≡ text.old.items ++ numbers_text numbers.now) }
{
    match numbers {
        [] => push_bytes(text, b"none"),
        [first, others @ ..] => {
            push_number(text, u64::from(*first))?;
            push_others(text, others)?;
            Ok(())
        }
    }
}

fn push_flow_numbers(text: &mut Vec<u8>, flow: &OpenFlow) -> Result<(), Memory>
    ensures { OnOk result (text.new.items ≡ text.old.items ++ flow_numbers flow.now) }
{
    push_named(text, b"pass ", u64::from(flow.pass))?;
    push_named(text, b" worker ", u64::from(flow.worker))?;
    push_named(text, b" acknowledged ", u64::from(flow.acknowledged))?;
    push_named(text, b" of ", u64::from(flow.of))?;
    Ok(())
}

fn push_flow(text: &mut Vec<u8>, flow: &OpenFlow) -> Result<(), Memory>
    ensures { OnOk result (text.new.items ≡ text.old.items ++ flow_line flow.now) }
{
    push_flow_numbers(text, flow)?;
    push_bytes(text, b" unacknowledged ")?;
    push_numbers(text, flow.unacknowledged.as_slice())?;
    push_bytes(text, b"\n")
}

fn push_partial(text: &mut Vec<u8>, rows: u64) -> Result<(), Memory>
    ensures { OnOk result (text.new.items ≡ text.old.items ++ partial_line rows) }
{
    push_named(text, b"partial answer rows=", rows)?;
    push_bytes(text, b"\n")
}

/// The line with the counts of a run.
pub fn counts_text(alloc: Global, counts: &Counts) -> Result<Bytes, Memory>
    ensures { IfOk result (λ text. text ≡ counts_line counts.now) }
{
    let mut text = Vec::new(alloc);
    push_named(&mut text, b"rows=", counts.rows)?;
    push_named(&mut text, b" sends=", counts.sends)?;
    push_named(&mut text, b" pruned=", counts.pruned)?;
    push_named(&mut text, b" forwarded=", counts.forwarded)?;
    push_named(&mut text, b" steps=", counts.steps)?;
    push_bytes(&mut text, b"\n")?;
    Ok(Bytes::from_vec(text))
}

/// The report of a run that isn't confirmed: a line for each open worker, and the number of rows of the answer over what was
/// received.
pub fn report_text(alloc: Global, flows: &[OpenFlow], partial: u64) -> Result<Bytes, Memory>
    ensures { IfOk result (λ text. text ≡ report flows.now partial) }
{
    let mut text = Vec::new(alloc);
    for flow in flows {
        push_flow(&mut text, flow)?;
    }
    push_partial(&mut text, partial)?;
    Ok(Bytes::from_vec(text))
}
