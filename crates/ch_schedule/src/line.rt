ghost use Rattle.std.specs.Prelude.{◌≡◌, IfOk};
ghost use Rattle.ch_lines.specs.Lines.{fields_of};
ghost use Rattle.ch_schedule.specs.Line.{alone_of, delivered_of, delivery, how_of, inject_of, line_of, link_of, resend_of, with_one_of, with_two_of};

use crate::field::{Fields, cut_fields, natural, read_hex};
use crate::step::{How, Link, Step};
use ch_cells::Memory;
use std::alloc::Global;

/// A line that says something.
#[derive(Drop)]
pub enum Line {
    Step(Step),
    /// The run goes on until all is confirmed.
    Drain,
}

fn how(word: &[u8]) -> Option<How>
    ensures { result ≡ how_of word.now }
{
    if word == b"keep".as_slice() {
        Some(How::Keep)
    } else if word == b"lose".as_slice() {
        Some(How::Lose)
    } else {
        None
    }
}

fn link(word: &[u8]) -> Option<Link>
    ensures { result ≡ link_of word.now }
{
    if word == b"up".as_slice() {
        Some(Link::Up)
    } else if word == b"down".as_slice() {
        Some(Link::Down)
    } else if word == b"back".as_slice() {
        Some(Link::Back)
    } else {
        None
    }
}

fn delivery(link: Link, at: u32, how: How) -> Step
    ensures { result ≡ delivery link at how }
{
    match link {
        Link::Up => Step::Up { at, how },
        Link::Down => Step::Down { at, how },
        Link::Back => Step::Back { at, how },
    }
}

fn alone(name: &[u8]) -> Option<Line>
    ensures { result ≡ alone_of name.now }
{
    if name == b"restart".as_slice() {
        Some(Line::Step(Step::Restart))
    } else if name == b"drain".as_slice() {
        Some(Line::Drain)
    } else {
        None
    }
}

fn with_one(name: &[u8], a: &[u8]) -> Option<Line>
    ensures { result ≡ with_one_of name.now a.now }
{
    if name == b"send".as_slice() {
        let worker = natural(a)?;
        return Some(Line::Step(Step::Send { worker }));
    }
    let link = link(name)?;
    let at = natural(a)?;
    Some(Line::Step(delivery(link, at, How::Take)))
}

fn resend(a: &[u8], b: &[u8]) -> Option<Line>
    ensures { result ≡ resend_of a.now b.now }
{
    let worker = natural(a)?;
    let place = natural(b)?;
    Some(Line::Step(Step::Resend { worker, place }))
}

fn delivered(name: &[u8], a: &[u8], b: &[u8]) -> Option<Line>
    ensures { result ≡ delivered_of name.now a.now b.now }
{
    let link = link(name)?;
    let at = natural(a)?;
    let how = how(b)?;
    Some(Line::Step(delivery(link, at, how)))
}

fn inject(alloc: Global, a: &[u8], b: &[u8]) -> Result<Option<Line>, Memory>
    ensures { IfOk result (λ line. line ≡ inject_of a.now b.now) }
{
    let Some(link) = link(a) else {
        return Ok(None);
    };
    match read_hex(alloc, b) {
        Ok(Some(bytes)) => Ok(Some(Line::Step(Step::Inject { link, bytes }))),
        Ok(None) => Ok(None),
        Err(error) => Err(error),
    }
}

fn with_two(alloc: Global, name: &[u8], a: &[u8], b: &[u8]) -> Result<Option<Line>, Memory>
    ensures { IfOk result (λ line. line ≡ with_two_of name.now a.now b.now) }
{
    if name == b"resend".as_slice() {
        Ok(resend(a, b))
    } else if name == b"inject".as_slice() {
        inject(alloc, a, b)
    } else {
        Ok(delivered(name, a, b))
    }
}

/// Reads a line. Takes memory for the bytes of an inject alone.
#[tactic(auto, unfolding(crate::specs::Line::line_of))]
pub fn read_line(alloc: Global, line: &[u8]) -> Result<Option<Line>, Memory>
    ensures { IfOk result (λ said. said ≡ line_of (fields_of line.now)) }
{
    match cut_fields(line) {
        Fields::One(name) => Ok(alone(name)),
        Fields::Two(name, a) => Ok(with_one(name, a)),
        Fields::Three(name, a, b) => with_two(alloc, name, a, b),
        Fields::None | Fields::More => Ok(None),
    }
}
