//! The rows that the master receives, by the notes of a run.
ghost use Rattle.std.specs.Prelude.{◌≡◌, ◌≢◌, ◌++◌, OnOk, Some};
ghost use Rattle.ch_packet.specs.Packet.{IsPacket};
ghost use Rattle.ch_packet.specs.Spelling.{spelling};
ghost use Rattle.ch_packet.specs.declared.packet.Packet.{Packet};
ghost use Rattle.ch_audit_runs.specs.Arrivals.{listed, row_in};

use ch_cells::Memory;
use ch_packet::{PacketKind, view};
use ch_protocol::NoteFate;
use ch_trace_lines::Noted;

/// A row that the master received.
#[derive(Clone, Copy)]
pub(crate) struct Arrival {
    pub(crate) pass: u8,
    pub(crate) worker: u16,
    pub(crate) number: u32,
}

/// The row that these bytes are a packet of. A Fin is none.
fn row_of(bytes: &[u8]) -> Option<Arrival>
    ensures { (p : Packet) → IsPacket p → bytes.now ≡ spelling p → result ≡ row_in p }
{
    match view(bytes) {
        Ok(packet) if packet.kind == PacketKind::Row => Some(Arrival {
            pass: packet.pass,
            worker: packet.worker,
            number: packet.number,
        }),
        Ok(_) | Err(_) => None,
    }
}

/// Keeps the row of a note, if one came in that is new to the master.
pub(crate) fn keep(rows: &mut Vec<Arrival>, noted: &Noted) -> Result<(), Memory>
    ensures came { (p : Packet) → IsPacket p → noted.now.bytes ≡ Some (spelling p) → noted.now.fate ≡ NoteFate.New → OnOk result (rows.new.items ≡ rows.old.items ++ listed (row_in p)) }
    ensures others { noted.now.fate ≢ NoteFate.New → OnOk result (rows.new.items ≡ rows.old.items) }
{
    if noted.fate != NoteFate::New {
        return Ok(());
    }
    if let Some(bytes) = &noted.bytes
        && let Some(row) = row_of(bytes.as_slice())
    {
        rows.push(row)?;
    }
    Ok(())
}
