ghost use Rattle.std.specs.Prelude.{◌≡◌, ◌≤◌, ◌<◌, IfOk, IfErr, List, length, MatchResult};
ghost use Rattle.ch_sql_tokens.specs.declared.token.Token.{Token};
ghost use Rattle.ch_sql_tokens.specs.Scan.{front_of, number_front, number_length, word_front, quoted_front, text_front, symbol_front, less_front, greater_front, lex_of, begins_nonzero, Scans};
ghost use Rattle.ch_sql_tokens.specs.Lexed.{IsQueryText, IsLexed, IsLexError, Lexes};

use crate::byte::{digits_len, is_separator, is_word_start, word_len};
use crate::error::LexError;
use crate::quote::quoted;
use crate::token::{Symbol, Token};
use ch_cells::{Bytes, Listed, Memory, read_number};
use std::alloc::Global;

/// The most bytes of a query text.
pub const MAX_QUERY_BYTES: usize = 16384;

/// What stands at the front of a text that doesn't begin with a blank.
#[derive(Drop)]
pub enum Front {
    /// The longest token, and how many bytes it takes.
    Found(Token, usize),
    OutOfRange,
    Nothing,
}

/// Whether a digit but 0 comes, behind a minus or none.
fn is_nonzero(number: &[u8]) -> bool
    ensures { result ≡ begins_nonzero number.now }
{
    match number {
        [b'-', b'1'..=b'9', ..] => true,
        [b'1'..=b'9', ..] => true,
        _ => false,
    }
}

/// How many bytes a minus, if it stands in front, and the digits behind it take.
fn number_len(text: &[u8]) -> usize
    ensures value { result ≡ number_length text.now }
    ensures within { result ≤ length text.now }
{
    if text.is_empty() {
        return 0;
    }
    if text[0] == b'-' {
        digits_len(&text[1..]) + 1
    } else {
        digits_len(text)
    }
}

fn number(text: &[u8]) -> Front
    ensures { result ≡ number_front text.now }
{
    let len = number_len(text);
    let spelling = &text[..len];
    match read_number(spelling) {
        Some(value) => Front::Found(Token::Number(value), len),
        None => {
            if is_nonzero(spelling) {
                Front::OutOfRange
            } else {
                Front::Nothing
            }
        }
    }
}

fn word(alloc: Global, text: &[u8]) -> Result<Front, Memory>
    ensures { IfOk result (λ f. f ≡ word_front text.now) }
{
    let len = word_len(text);
    let spelling = Bytes::from_slice(alloc, &text[..len])?;
    Ok(Front::Found(Token::Word(spelling), len))
}

/// The quoted name behind an open quote, which isn't empty.
fn name(alloc: Global, behind: &[u8]) -> Result<Front, Memory>
    ensures { IfOk result (λ f. f ≡ quoted_front behind.now) }
{
    match quoted(alloc, behind, b'"')? {
        Some((content, len)) => {
            if content.is_empty() {
                Ok(Front::Nothing)
            } else {
                Ok(Front::Found(Token::Quoted(Bytes::from_vec(content)), len + 1))
            }
        }
        None => Ok(Front::Nothing),
    }
}

/// The text behind an open quote.
fn text_token(alloc: Global, behind: &[u8]) -> Result<Front, Memory>
    ensures { IfOk result (λ f. f ≡ text_front behind.now) }
{
    match quoted(alloc, behind, b'\'')? {
        Some((content, len)) => Ok(Front::Found(Token::Text(Bytes::from_vec(content)), len + 1)),
        None => Ok(Front::Nothing),
    }
}

/// The sign that begins with `<`, whose rest is given.
fn less(behind: &[u8]) -> Front
    ensures { result ≡ less_front behind.now }
{
    match behind {
        [b'=', ..] => Front::Found(Token::Symbol(Symbol::Le), 2),
        [b'>', ..] => Front::Found(Token::Symbol(Symbol::Ne), 2),
        _ => Front::Found(Token::Symbol(Symbol::Lt), 1),
    }
}

/// The sign that begins with `>`, whose rest is given.
fn greater(behind: &[u8]) -> Front
    ensures { result ≡ greater_front behind.now }
{
    match behind {
        [b'=', ..] => Front::Found(Token::Symbol(Symbol::Ge), 2),
        _ => Front::Found(Token::Symbol(Symbol::Gt), 1),
    }
}

/// The sign of a first byte and those behind it.
fn symbol(first: u8, behind: &[u8]) -> Front
    ensures { result ≡ symbol_front first behind.now }
{
    if first == b'<' {
        return less(behind);
    }
    if first == b'>' {
        return greater(behind);
    }
    match first {
        b'=' => Front::Found(Token::Symbol(Symbol::Eq), 1),
        b'(' => Front::Found(Token::Symbol(Symbol::LeftParen), 1),
        b')' => Front::Found(Token::Symbol(Symbol::RightParen), 1),
        b',' => Front::Found(Token::Symbol(Symbol::Comma), 1),
        b'.' => Front::Found(Token::Symbol(Symbol::Dot), 1),
        b'*' => Front::Found(Token::Symbol(Symbol::Star), 1),
        b';' => Front::Found(Token::Symbol(Symbol::Semicolon), 1),
        _ => Front::Nothing,
    }
}

#[tactic(auto, unfolding(crate::specs::Scan::front_of))]
fn front_token(alloc: Global, text: &[u8]) -> Result<Front, Memory>
    ensures { IfOk result (λ f. f ≡ front_of text.now) }
{
    if text.is_empty() {
        return Ok(Front::Nothing);
    }
    let first = text[0];
    if is_word_start(first) {
        return word(alloc, text);
    }
    if first == b'-' || first.is_ascii_digit() {
        return Ok(number(text));
    }
    if first == b'"' {
        return name(alloc, &text[1..]);
    }
    if first == b'\'' {
        return text_token(alloc, &text[1..]);
    }
    Ok(symbol(first, &text[1..]))
}

/// The tokens of a text of any length.
#[tactic(auto, using(crate::proofs::ScanRules::scans))]
fn scan(alloc: Global, text: &[u8]) -> Result<Listed<Token>, LexError>
    ensures { Scans (lex_of text.now) result }
{
    let mut tokens = Listed::new(alloc);
    let mut at = 0;
    while at < text.len() {
        if is_separator(text[at]) {
            at += 1;
        } else {
            match front_token(alloc, &text[at..])? {
                Front::Found(token, len) => {
                    tokens.push(token)?;
                    at += len;
                }
                Front::OutOfRange => return Err(LexError::NumberRange { at }),
                Front::Nothing => return Err(LexError::Byte { at }),
            }
        }
    }
    Ok(tokens)
}

/// The tokens of a query text.
pub fn lex(alloc: Global, text: &[u8]) -> Result<Listed<Token>, LexError>
    // Read are exactly the tokens that the text stands for.
    ensures tokens { IfOk result (λ tokens. IsQueryText text.now × IsLexed text.now tokens) }
    // A refusal comes at its first place.
    ensures refused { IfErr result (IsLexError text.now) }
    // A text that stands for tokens is read, unless memory runs out.
    ensures only { (tokens : List Token) → IsQueryText text.now → IsLexed text.now tokens → Lexes tokens result }
{
    if text.len() > MAX_QUERY_BYTES {
        return Err(LexError::TooLong { have: text.len() });
    }
    scan(alloc, text)
}
