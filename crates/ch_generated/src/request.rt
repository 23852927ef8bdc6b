ghost use Rattle.std.specs.Prelude.{◌≡◌, ◌≤◌, map, string_bytes};
ghost use Rattle.ch_generated.specs.Request as spec;
ghost use Rattle.ch_generated.specs.Request.{positive, request_of, request_with, rows_of, seed_of};

use ch_numbers::natural;

/// What is asked of the tables.
#[derive(Clone, Copy, PartialEq, Eq)]
pub enum InputKind {
    Filter,
    Distinct,
    Top,
    Group,
    Having,
    Join,
    Skyline,
}

/// Which inputs are made.
#[derive(Clone, Copy)]
pub struct Request {
    pub seed: u64,
    /// The rows of table `t`, from 1 to 1,000,000.
    pub rows: u32,
    pub kind: InputKind,
}

const MOST_ROWS: u64 = 1_000_000;

#[tactic(auto, unfolding(crate::specs::Request::seed_of))]
fn seed_in(text: &str) -> Option<u64>
    ensures { result ≡ seed_of text.now }
{
    natural(u64::MAX, text.as_bytes())
}

/// The number as one of rows, which are not none.
fn positive(n: u64) -> Option<u32>
    requires { n ≤ 1000000 }
    ensures { result ≡ positive n }
{
    if n == 0 { None } else { Some(n as u32) }
}

#[tactic(auto, unfolding(crate::specs::Request::rows_of))]
fn rows_in(text: &str) -> Option<u32>
    ensures { result ≡ rows_of text.now }
{
    match natural(MOST_ROWS, text.as_bytes()) {
        Some(n) => positive(n),
        None => None,
    }
}

fn kind_in(word: &str) -> Option<InputKind>
    ensures { result ≡ spec.kind_of word.now }
{
    if word == "filter" {
        Some(InputKind::Filter)
    } else if word == "distinct" {
        Some(InputKind::Distinct)
    } else if word == "top" {
        Some(InputKind::Top)
    } else if word == "group" {
        Some(InputKind::Group)
    } else if word == "having" {
        Some(InputKind::Having)
    } else if word == "join" {
        Some(InputKind::Join)
    } else if word == "skyline" {
        Some(InputKind::Skyline)
    } else {
        None
    }
}

fn request_by(seed: &str, rows: &str, kind: &str) -> Option<Request>
    ensures { result ≡ request_with (seed_of seed.now) (rows_of rows.now) (spec.kind_of kind.now) }
{
    let seed = seed_in(seed)?;
    let rows = rows_in(rows)?;
    let kind = kind_in(kind)?;
    Some(Request { seed, rows, kind })
}

/// What the words ask for. The program's name is the first of them.
#[tactic(auto, unfolding(crate::specs::Request::request_of))]
pub fn requested_in(words: &[String]) -> Option<Request>
    ensures { result ≡ request_of (map string_bytes words.now) }
{
    match words {
        [_, seed, rows, kind] => request_by(seed.as_str(), rows.as_str(), kind.as_str()),
        _ => None,
    }
}
