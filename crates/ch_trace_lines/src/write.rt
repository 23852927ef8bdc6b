//! Each function writes at the end of the text.
ghost use Rattle.std.specs.Prelude.{◌≡◌, ◌<◌, ◌++◌, ◌∷◌, OnOk};
ghost use Rattle.std.specs.List.{join_with_byte};
ghost use Rattle.std.specs.Fmt.{decimal};
ghost use Rattle.ch_trace_lines.specs.Spelling as spec;
ghost use Rattle.ch_trace_lines.specs.Spelling.{byte_text, digit_text, hex_text, ended, line_text};
ghost use Rattle.ch_trace_lines.specs.declared.line.Line.TheVariants as line;

use crate::fates::{ending_text, fate_text, how_text, link_text};
use crate::line::{Ending, Noted};
use ch_cells::{Bytes, Memory};
use ch_protocol::NoteFate;
use ch_schedule::{How, Link, Step};
use itoa::Buffer;

fn push_bytes(text: &mut Vec<u8>, bytes: &[u8]) -> Result<(), Memory>
    ensures { OnOk result (text.new.items ≡ text.old.items ++ bytes.now) }
{
    text.extend_from_slice(bytes)?;
    Ok(())
}

/// Writes a space and a number.
fn push_number(text: &mut Vec<u8>, n: u32) -> Result<(), Memory>
    ensures { OnOk result (text.new.items ≡ text.old.items ++ 32 ∷ decimal n) }
{
    let mut digits = Buffer::new();
    text.push(b' ')?;
    push_bytes(text, digits.format(n).as_bytes())
}

/// Writes a space and a word.
fn push_word(text: &mut Vec<u8>, word: &[u8]) -> Result<(), Memory>
    ensures { OnOk result (text.new.items ≡ text.old.items ++ 32 ∷ word.now) }
{
    text.push(b' ')?;
    push_bytes(text, word)
}

/// A hexadecimal digit in lower case.
fn digit_text(digit: u8) -> u8
    requires { digit < 16 }
    ensures { result ≡ digit_text digit }
{
    if digit < 10 {
        b'0' + digit
    } else {
        b'a' + (digit - 10)
    }
}

fn byte_text(byte: u8) -> [u8; 2]
    ensures { result ≡ byte_text byte }
{
    [digit_text(byte / 16), digit_text(byte % 16)]
}

#[tactic(auto, using(crate::proofs::Hex::hex_step))]
fn push_hex(text: &mut Vec<u8>, bytes: &[u8]) -> Result<(), Memory>
    ensures { OnOk result (text.new.items ≡ text.old.items ++ hex_text bytes.now) }
{
    for byte in bytes {
        push_bytes(text, &byte_text(*byte))?;
    }
    Ok(())
}

/// Writes a space and a packet, or `-` for none.
fn push_packet(text: &mut Vec<u8>, packet: &Option<Bytes>) -> Result<(), Memory>
    ensures { OnOk result (text.new.items ≡ text.old.items ++ 32 ∷ spec.packet_text packet.now) }
{
    text.push(b' ')?;
    match packet {
        Some(bytes) => push_hex(text, bytes.as_slice()),
        None => push_bytes(text, b"-"),
    }
}

/// Writes a space and the bytes that a link gives, or `-` for none.
fn push_given(text: &mut Vec<u8>, bytes: &[u8]) -> Result<(), Memory>
    ensures { OnOk result (text.new.items ≡ text.old.items ++ 32 ∷ spec.given_text bytes.now) }
{
    text.push(b' ')?;
    if bytes.is_empty() {
        push_bytes(text, b"-")
    } else {
        push_hex(text, bytes)
    }
}

/// Writes a delivery behind the name of its link.
fn push_delivery(
    text: &mut Vec<u8>,
    link: Link,
    at: u32,
    how: How,
    packet: &Option<Bytes>,
    fate: NoteFate,
) -> Result<(), Memory>
    ensures { OnOk result (text.new.items ≡ text.old.items ++ join_with_byte 32 (spec.delivery_fields link at how packet.now fate)) }
{
    push_bytes(text, link_text(link))?;
    push_number(text, at)?;
    push_word(text, how_text(how))?;
    push_packet(text, packet)?;
    push_word(text, fate_text(fate))
}

fn push_send(text: &mut Vec<u8>, worker: u32, packet: &Option<Bytes>) -> Result<(), Memory>
    ensures { OnOk result (text.new.items ≡ text.old.items ++ join_with_byte 32 (spec.send_fields worker packet.now)) }
{
    push_bytes(text, b"send")?;
    push_number(text, worker)?;
    push_packet(text, packet)
}

fn push_resend(
    text: &mut Vec<u8>,
    worker: u32,
    place: u32,
    packet: &Option<Bytes>,
) -> Result<(), Memory>
    ensures { OnOk result (text.new.items ≡ text.old.items ++ join_with_byte 32 (spec.resend_fields worker place packet.now)) }
{
    push_bytes(text, b"resend")?;
    push_number(text, worker)?;
    push_number(text, place)?;
    push_packet(text, packet)
}

fn push_inject(text: &mut Vec<u8>, link: Link, bytes: &[u8]) -> Result<(), Memory>
    ensures { OnOk result (text.new.items ≡ text.old.items ++ join_with_byte 32 (spec.inject_fields link bytes.now)) }
{
    push_bytes(text, b"inject")?;
    push_word(text, link_text(link))?;
    push_given(text, bytes)
}

/// Writes an event without a line feed.
fn push_event(text: &mut Vec<u8>, noted: &Noted) -> Result<(), Memory>
    ensures { OnOk result (text.new.items ≡ text.old.items ++ line_text (line.Event noted.now)) }
{
    match &noted.step {
        Step::Send { worker } => push_send(text, *worker, &noted.bytes),
        Step::Resend { worker, place } => push_resend(text, *worker, *place, &noted.bytes),
        Step::Up { at, how } => {
            push_delivery(text, Link::Up, *at, *how, &noted.bytes, noted.fate)
        }
        Step::Down { at, how } => {
            push_delivery(text, Link::Down, *at, *how, &noted.bytes, noted.fate)
        }
        Step::Back { at, how } => {
            push_delivery(text, Link::Back, *at, *how, &noted.bytes, noted.fate)
        }
        Step::Inject { link, bytes } => push_inject(text, *link, bytes.as_slice()),
        Step::Restart => push_bytes(text, b"restart"),
    }
}

/// Writes the line of an event with its line feed.
pub fn push_noted(text: &mut Vec<u8>, noted: &Noted) -> Result<(), Memory>
    ensures { OnOk result (text.new.items ≡ text.old.items ++ ended (line_text (line.Event noted.now))) }
{
    push_event(text, noted)?;
    text.push(b'\n')?;
    Ok(())
}

/// Writes the last line with its line feed.
pub fn push_ending(text: &mut Vec<u8>, ending: Ending) -> Result<(), Memory>
    ensures { OnOk result (text.new.items ≡ text.old.items ++ ended (line_text (line.End ending))) }
{
    push_bytes(text, b"end")?;
    push_word(text, ending_text(ending))?;
    text.push(b'\n')?;
    Ok(())
}
