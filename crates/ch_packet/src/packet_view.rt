ghost use Rattle.std.specs.Prelude.{◌≡◌, ◌<◌, ◌≤◌, ◌+◌, ◌++◌, drop, None, Some, length, slice_get, slice_index, vec_capacity, vec_len, IfNone, IfOk, IsOkAnd, MatchResult};
ghost use Rattle.ch_packet.specs.Fault.{AreSound, IsSound, fault_after_kind, fault_of, kind_of};
ghost use Rattle.ch_packet.specs.Packet.{IsPacket, most_bit, most_words};
ghost use Rattle.ch_packet.specs.Spelling.{spelling};
ghost use Rattle.ch_packet.specs.View.{IsView, packet_of};
ghost use Rattle.ch_packet.specs.declared.packet.Packet.{Packet};

use crate::packet::{HEAD, MAGIC, PacketKind, VERSION};
use thiserror::Error;

/// A packet whose words stay in the bytes that it is read from.
#[derive(Clone, Copy)]
pub struct PacketView<'a> {
    pub kind: PacketKind,
    pub pass: u8,
    pub worker: u16,
    pub side: u8,
    pub number: u32,
    pub epoch: u32,
    pub bit: bool,
    /// Eight bytes for each word.
    pub body: &'a [u8],
}

/// Which field of some bytes is no packet's.
#[derive(Debug, Clone, Copy, PartialEq, Eq, Error)]
pub enum PacketError {
    #[error("too few bytes")]
    Short,
    #[error("another first byte")]
    Magic,
    #[error("another version")]
    Version,
    #[error("no such kind")]
    Kind,
    #[error("no such pass")]
    Pass,
    #[error("no such side")]
    Side,
    #[error("too many words")]
    Count,
    #[error("no such bit")]
    Bit,
    #[error("another length than that of the words")]
    Length,
}

fn kind_of(code: u8) -> Option<PacketKind>
    ensures { result ≡ kind_of code }
{
    match code {
        1 => Some(PacketKind::Row),
        2 => Some(PacketKind::Fin),
        3 => Some(PacketKind::Ack),
        _ => None,
    }
}

fn most_words(kind: PacketKind) -> u8
    ensures { result ≡ most_words kind }
{
    match kind {
        PacketKind::Row => 16,
        PacketKind::Fin | PacketKind::Ack => 0,
    }
}

fn most_bit(kind: PacketKind) -> u8
    ensures { result ≡ most_bit kind }
{
    match kind {
        PacketKind::Row => 1,
        PacketKind::Fin | PacketKind::Ack => 0,
    }
}

/// The first broken field from the pass on.
fn fault_after_kind(kind: PacketKind, bytes: &[u8]) -> Option<PacketError>
    requires { 17 ≤ length bytes.now }
    ensures first { result ≡ fault_after_kind (Some kind) bytes.now }
    ensures none { IfNone result (AreSound kind bytes.now) }
{
    if bytes[3] != 1 && bytes[3] != 2 {
        return Some(PacketError::Pass);
    }
    if 1 < bytes[6] {
        return Some(PacketError::Side);
    }
    if most_words(kind) < bytes[7] {
        return Some(PacketError::Count);
    }
    if most_bit(kind) < bytes[16] {
        return Some(PacketError::Bit);
    }
    if bytes.len() != HEAD + 8 * usize::from(bytes[7]) {
        return Some(PacketError::Length);
    }
    None
}

/// The kind of the bytes, or the first broken field.
#[tactic(auto, unfolding(crate::specs::Fault::fault_of))]
fn checked_kind(bytes: &[u8]) -> Result<PacketKind, PacketError>
    ensures { MatchResult result
        (λ kind. (fault_of bytes.now ≡ None) × IsSound kind bytes.now)
        (λ error. fault_of bytes.now ≡ Some error) }
{
    if bytes.len() < 2 {
        return Err(PacketError::Short);
    }
    if bytes[0] != MAGIC {
        return Err(PacketError::Magic);
    }
    if bytes[1] != VERSION {
        return Err(PacketError::Version);
    }
    if bytes.len() < HEAD {
        return Err(PacketError::Short);
    }
    match kind_of(bytes[2]) {
        Some(kind) => match fault_after_kind(kind, bytes) {
            Some(error) => Err(error),
            None => Ok(kind),
        },
        None => Err(PacketError::Kind),
    }
}

/// The packet that the bytes spell, or their first broken field. Copies nothing and takes no memory.
pub fn view<'a>(bytes: &'a [u8]) -> Result<PacketView<'a>, PacketError>
    ensures answer { MatchResult result
        (λ view. IsView view × IsPacket (packet_of view) × (spelling (packet_of view) ≡ bytes.now))
        (λ error. fault_of bytes.now ≡ Some error) }
    ensures accepted { IfOk result (λ _. fault_of bytes.now ≡ None) }
    ensures body { IfOk result (λ view. view.body.now ≡ drop 17 bytes.now) }

    // The view of a written packet is the packet.
    ensures written { (packet : Packet) → IsPacket packet → bytes.now ≡ spelling packet →
        IsOkAnd result (λ view. packet_of view ≡ packet) }
{
    let kind = checked_kind(bytes)?;
    Ok(PacketView {
        kind,
        pass: bytes[3],
        worker: u16::from_be_bytes([bytes[4], bytes[5]]),
        side: bytes[6],
        number: u32::from_be_bytes([bytes[8], bytes[9], bytes[10], bytes[11]]),
        epoch: u32::from_be_bytes([bytes[12], bytes[13], bytes[14], bytes[15]]),
        bit: bytes[16] == 1,
        body: &bytes[HEAD..],
    })
}

impl<'a> PacketView<'a> {
    /// How many words there are.
    pub fn len(&self) -> u8
        requires { IsView self.now }
        ensures { result ≡ length (packet_of self.now).words }
    {
        (self.body.len() / 8) as u8
    }

    /// The word at a place.
    pub fn word(&self, i: u8) -> i64
        requires view { IsView self.now }
        requires there { i < length (packet_of self.now).words }
        ensures { slice_get (packet_of self.now).words i ≡ Some result }
    {
        let at = 8 * usize::from(i);
        let bytes = self.body[at..].first_chunk::<8>().unwrap();
        u64::from_be_bytes(*bytes).cast_signed()
    }

    /// Puts the words behind those of a row that has room for them. Takes no memory.
    #[tactic(auto, using(crate::proofs::Words::more_behind))]
    pub fn append_words(&self, row: &mut Vec<i64>)
        requires view { IsView self.now }
        requires room { vec_len row.old + length (packet_of self.now).words ≤ vec_capacity row.old }
        ensures row { row.new.items ≡ row.old.items ++ (packet_of self.now).words }
        ensures room { vec_capacity row.new ≡ vec_capacity row.old }
    {
        for i in 0..self.len() {
            row.push_reserved(self.word(i));
        }
    }
}
