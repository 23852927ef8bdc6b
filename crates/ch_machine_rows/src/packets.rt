//! Packets, and their fates.
ghost use Rattle.std.specs.Prelude.{◌≡◌};
ghost use Rattle.ch_machine_rows.specs.Takes.{TakesAWord};

use ch_cells::{Bytes, Listed, Memory};
use ch_packet::{Packet, PacketKind, view, write_packet};
use ch_switch::{Fate, Switch};
use std::alloc::Global;

/// The bytes of a row with one word.
pub(crate) fn row_bytes(
    alloc: Global,
    pass: u8,
    worker: u16,
    number: u32,
    word: i64,
) -> Result<Bytes, Memory> {
    if pass != 1 && pass != 2 {
        return Err(Memory);
    }
    let packet = Packet {
        kind: PacketKind::Row,
        pass,
        worker,
        side: 0,
        number,
        epoch: 0,
        bit: true,
        words: Listed::from_vec(vec![in alloc; word]?),
    };
    write_packet(alloc, &packet)
}

pub(crate) fn fin_bytes(
    alloc: Global,
    pass: u8,
    worker: u16,
    number: u32,
) -> Result<Bytes, Memory> {
    if pass != 1 && pass != 2 {
        return Err(Memory);
    }
    let packet = Packet {
        kind: PacketKind::Fin,
        pass,
        worker,
        side: 0,
        number,
        epoch: 0,
        bit: false,
        words: Listed::new(alloc),
    };
    write_packet(alloc, &packet)
}

/// The fate of the packet that the bytes are, if the switch may meet it.
#[tactic(auto, using(crate::proofs::Places::fewer_words))]
pub(crate) fn fate(switch: &mut Switch, bytes: &[u8]) -> Option<Fate>
    requires { TakesAWord switch.old }
    ensures takes { TakesAWord switch.new }
    ensures width { switch.new.program.width ≡ switch.old.program.width }
{
    match view(bytes) {
        Ok(packet) => {
            if packet.kind != PacketKind::Ack
                && packet.worker < 2
                && packet.number < u32::MAX
                && packet.len() <= 1
            {
                Some(switch.meet(&packet))
            } else {
                None
            }
        }
        Err(_) => None,
    }
}
