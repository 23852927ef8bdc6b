ghost use Rattle.std.specs.Prelude.{◌≡◌, ◌<◌, IfOk};
ghost use Rattle.ch_packet.specs.Packet.{IsPacket};
ghost use Rattle.ch_packet.specs.Spelling.{spelling};
ghost use Rattle.ch_packet.specs.declared.packet.Packet.{Packet};
ghost use Rattle.ch_links.specs.Spelled.{IsSpelled, ack_of};

use ch_cells::{Bytes, Listed, Memory};
use ch_packet::{Packet, PacketKind, set_epoch, spellings_are_accepted, view, write_packet};
use std::alloc::Global;

/// The acknowledgement of a packet by its origin, 0 for the switch and 1 for the master, with an epoch.
pub fn ack(alloc: Global, bytes: &[u8], origin: u8, epoch: u32) -> Result<Bytes, Memory>
    requires spelled { IsSpelled bytes.now }
    requires origin { origin < 2 }
    ensures { (p : Packet) → IsPacket p → bytes.now ≡ spelling p → IfOk result (λ b. b ≡ spelling (ack_of p origin epoch)) }
{
    match view(bytes) {
        Ok(packet) => write_packet(
            alloc,
            &Packet {
                kind: PacketKind::Ack,
                pass: packet.pass,
                worker: packet.worker,
                side: origin,
                number: packet.number,
                epoch,
                bit: false,
                words: Listed::new(alloc),
            },
        ),
        Err(_) => Err(Memory),
    }
}

/// The master's acknowledgement of a packet, with the packet's own epoch.
pub fn receipt(alloc: Global, bytes: &[u8]) -> Result<Bytes, Memory>
    requires { IsSpelled bytes.now }
    ensures { (p : Packet) → IsPacket p → bytes.now ≡ spelling p → IfOk result (λ b. b ≡ spelling (ack_of p 1 p.epoch)) }
{
    match view(bytes) {
        Ok(packet) => ack(alloc, bytes, 1, packet.epoch),
        Err(_) => Err(Memory),
    }
}

/// The packet in another epoch. Takes no memory.
pub fn with_epoch(bytes: Bytes, epoch: u32) -> Bytes
    requires { IsSpelled bytes }
    ensures { (p : Packet) → IsPacket p → bytes ≡ spelling p → result ≡ spelling (record p { epoch = epoch }) }
{
    let mut bytes = bytes.into_vec();
    spellings_are_accepted();
    set_epoch(bytes.as_mut_slice(), epoch);
    Bytes::from_vec(bytes)
}
