ghost use Rattle.std.specs.Prelude.{◌≡◌, ◌++◌, ◌≤◌, None, length, take, drop, IfOk, OnOk};
ghost use Rattle.std.specs.Int.{w32, to_be_bytes};
ghost use Rattle.std.specs.List.{flat_map};
ghost use Rattle.ch_packet.specs.Fault.{fault_of};
ghost use Rattle.ch_packet.specs.Packet.{IsPacket, IsWritable, bit_code};
ghost use Rattle.ch_packet.specs.Spelling.{head, kind_code, spelling, word_bytes};
ghost use Rattle.ch_packet.specs.declared.packet.Packet.{Packet};

use byteorder::{BigEndian, ByteOrder, WriteBytesExt};
use ch_cells::{Bytes, Listed, Memory};
use std::alloc::Global;
use std::io;
use std::io::Write;

/// The first byte of each packet.
pub(crate) const MAGIC: u8 = 0xC7;

/// The version of the format, which is the only one.
pub(crate) const VERSION: u8 = 2;

/// The bytes before the words.
pub(crate) const HEAD: usize = 17;

/// What a packet is.
#[derive(Debug, Clone, Copy, PartialEq, Eq)]
pub enum PacketKind {
    /// A row of a worker.
    Row,
    /// The end of a worker's rows.
    Fin,
    /// The acknowledgement of a number.
    Ack,
}

/// A packet as it is written.
#[derive(Drop)]
pub struct Packet {
    pub kind: PacketKind,
    /// 1 or 2.
    pub pass: u8,
    pub worker: u16,
    /// The side of a row's table, 0 or 1. For an acknowledgement its origin: 0 the switch, 1 the master.
    pub side: u8,
    /// The number of the packet in its flow.
    pub number: u32,
    pub epoch: u32,
    /// Whether the row passed its gate.
    pub bit: bool,
    pub words: Listed<i64>,
}

fn kind_code(kind: PacketKind) -> u8
    ensures { result ≡ kind_code kind }
{
    match kind {
        PacketKind::Row => 1,
        PacketKind::Fin => 2,
        PacketKind::Ack => 3,
    }
}

fn bit_code(bit: bool) -> u8
    ensures { result ≡ bit_code bit }
{
    if bit { 1 } else { 0 }
}

/// Writes all before the words.
#[tactic(auto, unfolding(crate::specs::Spelling::head))]
fn write_head(out: &mut Vec<u8>, packet: &Packet) -> io::Result<()>
    requires { length packet.now.words ≤ 16 }
    ensures { OnOk result (out.new.items ≡ out.old.items ++ head packet.now) }
{
    let count = packet.words.len() as u8;
    out.write_all(&[MAGIC, VERSION, kind_code(packet.kind), packet.pass])?;
    out.write_u16::<BigEndian>(packet.worker)?;
    out.write_all(&[packet.side, count])?;
    out.write_u32::<BigEndian>(packet.number)?;
    out.write_u32::<BigEndian>(packet.epoch)?;
    out.write_u8(bit_code(packet.bit))?;
    Ok(())
}

fn write_words(out: &mut Vec<u8>, words: &[i64]) -> io::Result<()>
    ensures { OnOk result (out.new.items ≡ out.old.items ++ flat_map word_bytes words.now) }
{
    for word in words {
        out.write_i64::<BigEndian>(*word)?;
    }
    Ok(())
}

/// Writes a packet. The bytes take no more memory than they are long.
#[tactic(auto, unfolding(crate::specs::Spelling::spelling))]
pub fn write_packet(alloc: Global, packet: &Packet) -> Result<Bytes, Memory>
    requires { IsWritable packet.now }
    ensures { IfOk result (λ bytes. bytes ≡ spelling packet.now) }
{
    let mut out = Vec::with_capacity(alloc, HEAD + 8 * packet.words.len())?;
    if write_head(&mut out, packet).is_err() {
        return Err(Memory);
    }
    if write_words(&mut out, packet.words.as_slice()).is_err() {
        return Err(Memory);
    }
    Ok(Bytes::from_vec(out))
}

fn write_epoch(bytes: &mut [u8], epoch: u32)
    requires { 16 ≤ length bytes.old }
    ensures { bytes.new ≡ take 12 bytes.old ++ to_be_bytes w32 epoch ++ drop 16 bytes.old }
{
    BigEndian::write_u32(&mut bytes[12..], epoch);
}

/// Makes a packet one of another epoch, in place.
pub fn set_epoch(bytes: &mut [u8], epoch: u32)
    requires { fault_of bytes.old ≡ None }
    ensures bytes { bytes.new ≡ take 12 bytes.old ++ to_be_bytes w32 epoch ++ drop 16 bytes.old }
    ensures packet { (packet : Packet) → IsPacket packet → bytes.old ≡ spelling packet →
        bytes.new ≡ spelling (record packet { epoch = epoch }) }
    ensures accepted { fault_of bytes.new ≡ None }
{
    write_epoch(bytes, epoch);
}
