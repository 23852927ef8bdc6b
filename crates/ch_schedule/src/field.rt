ghost use Rattle.std.specs.Prelude.{◌≡◌, ◌<◌, IfOk, IfSome};
ghost use Rattle.ch_lines.specs.Lines.{fields_of};
ghost use Rattle.ch_schedule.specs.Field.{Are, byte_of, bytes_of, digit_of, hex_of, natural_of};

use ch_cells::{Bytes, Memory, read_number};
use ch_lines::next_field;
use std::alloc::Global;

/// The fields of a line, where they are few enough for a step.
#[derive(Clone, Copy)]
pub enum Fields<'a> {
    None,
    One(&'a [u8]),
    Two(&'a [u8], &'a [u8]),
    Three(&'a [u8], &'a [u8], &'a [u8]),
    More,
}

/// Cuts a line into its fields.
pub fn cut_fields(line: &[u8]) -> Fields<'_>
    ensures { Are result (fields_of line.now) }
{
    let Some(first) = next_field(line) else {
        return Fields::None;
    };
    let Some(second) = next_field(first.rest) else {
        return Fields::One(first.first);
    };
    let Some(third) = next_field(second.rest) else {
        return Fields::Two(first.first, second.first);
    };
    match next_field(third.rest) {
        None => Fields::Three(first.first, second.first, third.first),
        Some(_) => Fields::More,
    }
}

/// The number that a field is.
pub fn natural(field: &[u8]) -> Option<u32>
    ensures { result ≡ natural_of field.now }
{
    match read_number(field) {
        Some(n) if 0 <= n && n <= i64::from(u32::MAX) => Some(n as u32),
        _ => None,
    }
}

fn digit(byte: u8) -> Option<u8>
    ensures value { result ≡ digit_of byte }
    ensures small { IfSome result (λ d. d < 16) }
{
    match byte {
        b'0'..=b'9' => Some(byte - b'0'),
        b'a'..=b'f' => Some(byte - b'a' + 10),
        _ => None,
    }
}

/// The byte of two digits.
fn byte(high: u8, low: u8) -> Option<u8>
    ensures { result ≡ byte_of high low }
{
    match (digit(high), digit(low)) {
        (Some(high), Some(low)) => Some(high * 16 + low),
        _ => None,
    }
}

/// The bytes that a field is. Where it is no field of bytes, there is none; memory is taken for the bytes alone.
pub fn read_hex(alloc: Global, field: &[u8]) -> Result<Option<Bytes>, Memory>
    ensures { IfOk result (λ bytes. bytes ≡ hex_of field.now) }
{
    if field == b"-".as_slice() {
        return Ok(Some(Bytes::from_vec(Vec::new(alloc))));
    }
    if 512 < field.len() {
        return Ok(None);
    }
    read_bytes(alloc, field)
}

/// The bytes that two hexadecimal digits each spell, however many there are.
pub fn read_bytes(alloc: Global, digits: &[u8]) -> Result<Option<Bytes>, Memory>
    ensures { IfOk result (λ bytes. bytes ≡ bytes_of digits.now) }
{
    let mut bytes = Vec::with_capacity(alloc, digits.len() / 2)?;
    let mut rest = digits;
    while let [high, low, more @ ..] = rest {
        let Some(next) = byte(*high, *low) else {
            return Ok(None);
        };
        bytes.push(next)?;
        rest = more;
    }
    if rest.is_empty() {
        Ok(Some(Bytes::from_vec(bytes)))
    } else {
        Ok(None)
    }
}
