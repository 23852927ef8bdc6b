//! Packets and their bytes.
ghost use Rattle.std.specs.Prelude.{◌≤◌, length, IfOk};
ghost use Rattle.ch_packet.specs.Packet.{IsWritable};

use ch_cells::{Bytes, Listed, Memory};
use ch_packet::{Packet, PacketKind, set_epoch, view, write_packet};
use ch_schedule::read_bytes;
use std::alloc::Global;

/// A row of pass 1 with these words.
fn row(words: Vec<i64>) -> Packet
    requires { length words.items ≤ 16 }
    ensures { IsWritable result }
{
    Packet {
        kind: PacketKind::Row,
        pass: 1,
        worker: 0,
        side: 0,
        number: 2,
        epoch: 0,
        bit: true,
        words: Listed::from_vec(words),
    }
}

/// Bytes in hexadecimal.
fn digits(alloc: Global, bytes: &[u8]) -> anyhow::Result<String> {
    let mut text = String::new(alloc);
    for byte in bytes {
        text.push_str(format!(in alloc; "{byte:02x}")?.as_str())?;
    }
    Ok(text)
}

/// The bytes that these digits are.
fn bytes_of(alloc: Global, digits: &str) -> anyhow::Result<Bytes> {
    match read_bytes(alloc, digits.as_bytes())? {
        Some(bytes) => Ok(bytes),
        None => Err(Memory.into()),
    }
}

pub(crate) fn spell(alloc: Global, said: &str) -> anyhow::Result<String> {
    let mut words = Vec::new(alloc);
    for word in said.split(' ') {
        words.push(word.parse::<i64>()?)?;
    }
    if words.len() > 16 {
        return Ok(String::from_str(alloc, "too many words")?);
    }
    let bytes = write_packet(alloc, &row(words))?;
    digits(alloc, bytes.as_slice())
}

/// The acknowledgement of number 0 of worker 3.
fn first_ack(alloc: Global) -> Packet
    ensures { IsWritable result }
{
    Packet {
        kind: PacketKind::Ack,
        pass: 1,
        worker: 3,
        side: 0,
        number: 0,
        epoch: 0,
        bit: false,
        words: Listed::new(alloc),
    }
}

pub(crate) fn ack(alloc: Global) -> anyhow::Result<String> {
    let bytes = write_packet(alloc, &first_ack(alloc))?;
    digits(alloc, bytes.as_slice())
}

/// The fields of the packet that the bytes are, or the broken one.
fn shown(alloc: Global, bytes: &[u8]) -> anyhow::Result<String> {
    match view(bytes) {
        Ok(packet) => {
            let mut words = Vec::new(alloc);
            for i in 0..packet.len() {
                words.push(packet.word(i))?;
            }
            let (kind, pass, worker) = (packet.kind, packet.pass, packet.worker);
            let (side, number) = (packet.side, packet.number);
            let (epoch, bit) = (packet.epoch, packet.bit);
            Ok(format!(in alloc;
                "{kind:?}, pass {pass}, worker {worker}, side {side}, number {number}, epoch {epoch}, bit {bit}, {words:?}"
            )?)
        }
        Err(error) => Ok(format!(in alloc; "{error:?}: {error}")?),
    }
}

pub(crate) fn view_of(alloc: Global, said: &str) -> anyhow::Result<String> {
    let bytes = bytes_of(alloc, said)?;
    shown(alloc, bytes.as_slice())
}

pub(crate) fn epoch(alloc: Global, said: &str) -> anyhow::Result<String> {
    let (number, digits) = said.split_once(' ').unwrap_or((said, ""));
    let number = number.parse::<u32>()?;
    let mut bytes = bytes_of(alloc, digits)?.into_vec();
    if view(&bytes).is_ok() {
        set_epoch(&mut bytes, number);
    }
    shown(alloc, bytes.as_slice())
}
