ghost use Rattle.std.specs.Prelude.{◌≡◌};
ghost use Rattle.ch_schedule.specs.Line as schedule;
ghost use Rattle.ch_trace_lines.specs.Range.{sent_of};
ghost use Rattle.ch_trace_lines.specs.Reading.{Gives, alone_of, delivery_of, ending_of, inject_of, line_at, line_of, resend_of, send_of, with_two_of};

use crate::cut::{Fields, cut_fields};
use crate::fates::read_fate;
use crate::field::{how, link, read_given, read_packet};
use crate::line::{Ending, Line, LineError, Noted};
use ch_cells::Bytes;
use ch_protocol::NoteFate;
use ch_schedule::{How, Link, Step, natural};
use std::alloc::Global;

fn delivery(link: Link, at: u32, how: How) -> Step
    ensures { result ≡ schedule.delivery link at how }
{
    match link {
        Link::Up => Step::Up { at, how },
        Link::Down => Step::Down { at, how },
        Link::Back => Step::Back { at, how },
    }
}

/// A send or a resend, by the packet that it put on the link.
fn sent(step: Step, bytes: Option<Bytes>) -> Line
    ensures { result ≡ Line.Event (record { step = step; bytes = bytes; fate = sent_of bytes }) }
{
    let fate = match &bytes {
        Some(_) => NoteFate::Sent,
        None => NoteFate::Nothing,
    };
    Line::Event(Noted { step, bytes, fate })
}

fn alone(name: &[u8]) -> Result<Line, LineError>
    ensures { Gives (alone_of name.now) result }
{
    if name == b"restart".as_slice() {
        Ok(Line::Event(Noted {
            step: Step::Restart,
            bytes: None,
            fate: NoteFate::Restarted,
        }))
    } else {
        Err(LineError::Bad)
    }
}

fn ending(name: &[u8], word: &[u8]) -> Result<Line, LineError>
    ensures { Gives (ending_of name.now word.now) result }
{
    if name == b"end".as_slice() {
        if word == b"done".as_slice() {
            return Ok(Line::End(Ending::Done));
        }
        if word == b"open".as_slice() {
            return Ok(Line::End(Ending::Open));
        }
    }
    Err(LineError::Bad)
}

fn read_send(alloc: Global, worker: &[u8], packet: &[u8]) -> Result<Line, LineError>
    ensures { Gives (send_of worker.now packet.now) result }
{
    let worker = natural(worker).ok_or(LineError::Bad)?;
    let bytes = read_packet(alloc, packet)?;
    Ok(sent(Step::Send { worker }, bytes))
}

fn read_inject(alloc: Global, word: &[u8], given: &[u8]) -> Result<Line, LineError>
    ensures { Gives (inject_of word.now given.now) result }
{
    let link = link(word).ok_or(LineError::Bad)?;
    let bytes = read_given(alloc, given)?;
    Ok(Line::Event(Noted {
        step: Step::Inject { link, bytes },
        bytes: None,
        fate: NoteFate::Injected,
    }))
}

fn with_two(alloc: Global, name: &[u8], a: &[u8], b: &[u8]) -> Result<Line, LineError>
    ensures { Gives (with_two_of name.now a.now b.now) result }
{
    if name == b"send".as_slice() {
        read_send(alloc, a, b)
    } else if name == b"inject".as_slice() {
        read_inject(alloc, a, b)
    } else {
        Err(LineError::Bad)
    }
}

fn read_resend(
    alloc: Global,
    name: &[u8],
    worker: &[u8],
    place: &[u8],
    packet: &[u8],
) -> Result<Line, LineError>
    ensures { Gives (resend_of name.now worker.now place.now packet.now) result }
{
    if name != b"resend".as_slice() {
        return Err(LineError::Bad);
    }
    let worker = natural(worker).ok_or(LineError::Bad)?;
    let place = natural(place).ok_or(LineError::Bad)?;
    let bytes = read_packet(alloc, packet)?;
    Ok(sent(Step::Resend { worker, place }, bytes))
}

fn read_delivery(
    alloc: Global,
    name: &[u8],
    at: &[u8],
    word: &[u8],
    packet: &[u8],
    fate: &[u8],
) -> Result<Line, LineError>
    ensures { Gives (delivery_of name.now at.now word.now packet.now fate.now) result }
{
    let link = link(name).ok_or(LineError::Bad)?;
    let at = natural(at).ok_or(LineError::Bad)?;
    let how = how(word).ok_or(LineError::Bad)?;
    let bytes = read_packet(alloc, packet)?;
    match read_fate(link, how, bytes.is_some(), fate) {
        Some(fate) => Ok(Line::Event(Noted {
            step: delivery(link, at, how),
            bytes,
            fate,
        })),
        None => Err(LineError::Bad),
    }
}

/// Reads a line, which comes without its line feed. Memory is taken for the bytes that it shows alone.
#[tactic(auto, unfolding(crate::specs::Reading::line_of))]
pub fn read_line(alloc: Global, text: &[u8]) -> Result<Line, LineError>
    ensures { Gives (line_at text.now) result }
{
    match cut_fields(text) {
        Fields::One(name) => alone(name),
        Fields::Two(name, word) => ending(name, word),
        Fields::Three(name, a, b) => with_two(alloc, name, a, b),
        Fields::Four(name, a, b, c) => read_resend(alloc, name, a, b, c),
        Fields::Five(name, a, b, c, d) => read_delivery(alloc, name, a, b, c, d),
        Fields::More => Err(LineError::Bad),
    }
}
