//! The words of a line.
ghost use Rattle.std.specs.Prelude.{◌≡◌};
ghost use Rattle.ch_trace_lines.specs.Spelling as spec;
ghost use Rattle.ch_trace_lines.specs.Fates as fates_spec;
ghost use Rattle.ch_trace_lines.specs.Reading.{fate_among};

use crate::line::Ending;
use ch_protocol::NoteFate;
use ch_schedule::{How, Link};

const NOTHING: [NoteFate; 1] = [NoteFate::Nothing];

const LOST: [NoteFate; 1] = [NoteFate::Lost];

const MET: [NoteFate; 4] = [
    NoteFate::Dropped,
    NoteFate::Pruned,
    NoteFate::Forwarded,
    NoteFate::Passed,
];

const RECEIVED: [NoteFate; 2] = [NoteFate::New, NoteFate::Old];

const LEARNED: [NoteFate; 2] = [NoteFate::Taken, NoteFate::Ignored];

pub(crate) fn fate_text(fate: NoteFate) -> &'static [u8]
    ensures { result.now ≡ spec.fate_text fate }
{
    match fate {
        NoteFate::Nothing => b"-",
        NoteFate::Sent => b"sent",
        NoteFate::Dropped => b"dropped",
        NoteFate::Pruned => b"pruned",
        NoteFate::Forwarded => b"forwarded",
        NoteFate::Passed => b"passed",
        NoteFate::New => b"new",
        NoteFate::Old => b"old",
        NoteFate::Taken => b"taken",
        NoteFate::Ignored => b"ignored",
        NoteFate::Lost => b"lost",
        NoteFate::Injected => b"injected",
        NoteFate::Restarted => b"restarted",
    }
}

pub(crate) fn link_text(link: Link) -> &'static [u8]
    ensures { result.now ≡ spec.link_text link }
{
    match link {
        Link::Up => b"up",
        Link::Down => b"down",
        Link::Back => b"back",
    }
}

pub(crate) fn how_text(how: How) -> &'static [u8]
    ensures { result.now ≡ spec.how_text how }
{
    match how {
        How::Take => b"take",
        How::Keep => b"keep",
        How::Lose => b"lose",
    }
}

pub(crate) fn ending_text(ending: Ending) -> &'static [u8]
    ensures { result.now ≡ spec.ending_text ending }
{
    match ending {
        Ending::Done => b"done",
        Ending::Open => b"open",
    }
}

/// The first of these whose word this is.
fn fate_among(fates: &[NoteFate], word: &[u8]) -> Option<NoteFate>
    ensures { result ≡ fate_among fates.now word.now }
{
    for fate in fates {
        if fate_text(*fate) == word {
            return Some(*fate);
        }
    }
    None
}

/// What can become of a packet that is delivered on a link.
fn delivered(link: Link, word: &[u8]) -> Option<NoteFate>
    ensures { result ≡ fate_among (fates_spec.delivered link) word.now }
{
    match link {
        Link::Up => fate_among(&MET, word),
        Link::Down => fate_among(&RECEIVED, word),
        Link::Back => fate_among(&LEARNED, word),
    }
}

/// The fate that the word tells, where a packet is at the place or isn't.
pub(crate) fn read_fate(link: Link, how: How, there: bool, word: &[u8]) -> Option<NoteFate>
    ensures { result ≡ fate_among (fates_spec.fates_for link how there) word.now }
{
    if !there {
        return fate_among(&NOTHING, word);
    }
    match how {
        How::Lose => fate_among(&LOST, word),
        How::Take | How::Keep => delivered(link, word),
    }
}
