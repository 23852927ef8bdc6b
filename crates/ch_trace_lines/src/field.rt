ghost use Rattle.std.specs.Prelude.{◌≡◌, not, is_some};
ghost use Rattle.ch_packet.specs.Fault.{fault_of};
ghost use Rattle.ch_schedule.specs.Field.{bytes_of};
ghost use Rattle.ch_schedule.specs.Line as schedule;
ghost use Rattle.ch_trace_lines.specs.Reading.{Gives, how_of, packet_of, given_of};

use crate::line::LineError;
use ch_cells::Bytes;
use ch_packet::view;
use ch_schedule::{How, Link, read_bytes};
use std::alloc::Global;

pub(crate) fn link(word: &[u8]) -> Option<Link>
    ensures { result ≡ schedule.link_of word.now }
{
    if word == b"up".as_slice() {
        Some(Link::Up)
    } else if word == b"down".as_slice() {
        Some(Link::Down)
    } else if word == b"back".as_slice() {
        Some(Link::Back)
    } else {
        None
    }
}

pub(crate) fn how(word: &[u8]) -> Option<How>
    ensures { result ≡ how_of word.now }
{
    if word == b"take".as_slice() {
        Some(How::Take)
    } else if word == b"keep".as_slice() {
        Some(How::Keep)
    } else if word == b"lose".as_slice() {
        Some(How::Lose)
    } else {
        None
    }
}

fn bytes(alloc: Global, digits: &[u8]) -> Result<Bytes, LineError>
    ensures { Gives (bytes_of digits.now) result }
{
    match read_bytes(alloc, digits) {
        Ok(Some(bytes)) => Ok(bytes),
        Ok(None) => Err(LineError::Bad),
        Err(_) => Err(LineError::Memory),
    }
}

fn is_packet(bytes: &[u8]) -> bool
    ensures { result ≡ not (is_some (fault_of bytes.now)) }
{
    view(bytes).is_ok()
}

/// The packet that a field shows, or `-` for none.
pub(crate) fn read_packet(alloc: Global, field: &[u8]) -> Result<Option<Bytes>, LineError>
    ensures { Gives (packet_of field.now) result }
{
    if field == b"-".as_slice() {
        return Ok(None);
    }
    let bytes = bytes(alloc, field)?;
    if !is_packet(bytes.as_slice()) {
        return Err(LineError::Bad);
    }
    Ok(Some(bytes))
}

/// The bytes that a link gives, which are no packet, or `-` for none.
pub(crate) fn read_given(alloc: Global, field: &[u8]) -> Result<Bytes, LineError>
    ensures { Gives (given_of field.now) result }
{
    if field == b"-".as_slice() {
        return Ok(Bytes::from_vec(Vec::new(alloc)));
    }
    if field.is_empty() || 512 < field.len() {
        return Err(LineError::Bad);
    }
    let bytes = bytes(alloc, field)?;
    if is_packet(bytes.as_slice()) {
        return Err(LineError::Bad);
    }
    Ok(bytes)
}
