ghost use Rattle.std.specs.Prelude.{◌≡◌, IfOk, map, option_map};
ghost use Rattle.ch_sql_grammar.specs.Tokens.{has_mark, name_in, terminal_of, symbol_mark};

use crate::keyword::keyword_in;
use ch_cells::{Bytes, Memory};
use ch_sql_tokens::{Symbol, Token};
use std::alloc::Global;

/// A keyword or a sign.
#[derive(Clone, Copy, Debug, PartialEq, Eq)]
pub enum Mark {
    Select,
    Distinct,
    From,
    Join,
    On,
    Where,
    Order,
    By,
    Asc,
    Desc,
    Limit,
    Group,
    Having,
    Sum,
    Count,
    Skyline,
    Of,
    Max,
    Min,
    And,
    Or,
    Not,
    Between,
    In,
    Like,
    Eq,
    Ne,
    Lt,
    Le,
    Gt,
    Ge,
    LeftParen,
    RightParen,
    Comma,
    Dot,
    Star,
    Semicolon,
}

/// A token as the grammar sees it: a word that is a keyword in any case is a mark, and any other
/// word is a name, as a quoted name is.
#[derive(Debug, Drop)]
pub enum Terminal {
    Mark(Mark),
    Name(Bytes),
    Number(i64),
    Text(Bytes),
}

pub fn is_mark(mark: Mark, token: &Terminal) -> bool
    ensures { result ≡ has_mark mark token.now }
{
    match token {
        Terminal::Mark(found) => mark == *found,
        _ => false,
    }
}

pub fn name_of(token: &Terminal) -> Option<&Bytes>
    ensures { option_map (λ n. n.now) result ≡ name_in token.now }
{
    match token {
        Terminal::Name(name) => Some(name),
        _ => None,
    }
}

fn mark_of(symbol: Symbol) -> Mark
    ensures { result ≡ symbol_mark symbol }
{
    match symbol {
        Symbol::Eq => Mark::Eq,
        Symbol::Ne => Mark::Ne,
        Symbol::Lt => Mark::Lt,
        Symbol::Le => Mark::Le,
        Symbol::Gt => Mark::Gt,
        Symbol::Ge => Mark::Ge,
        Symbol::LeftParen => Mark::LeftParen,
        Symbol::RightParen => Mark::RightParen,
        Symbol::Comma => Mark::Comma,
        Symbol::Dot => Mark::Dot,
        Symbol::Star => Mark::Star,
        Symbol::Semicolon => Mark::Semicolon,
    }
}

fn make_terminal(alloc: Global, token: &Token) -> Result<Terminal, Memory>
    ensures { IfOk result (λ t. t ≡ terminal_of token.now) }
{
    match token {
        Token::Word(word) => match keyword_in(word.as_slice()) {
            Some(mark) => Ok(Terminal::Mark(mark)),
            None => Ok(Terminal::Name(Bytes::from_slice(alloc, word.as_slice())?)),
        },
        Token::Quoted(name) => Ok(Terminal::Name(Bytes::from_slice(alloc, name.as_slice())?)),
        Token::Number(n) => Ok(Terminal::Number(*n)),
        Token::Text(text) => Ok(Terminal::Text(Bytes::from_slice(alloc, text.as_slice())?)),
        Token::Symbol(symbol) => Ok(Terminal::Mark(mark_of(*symbol))),
    }
}

/// The tokens as the grammar sees them.
pub fn terminals_of(alloc: Global, tokens: &[Token]) -> Result<Vec<Terminal>, Memory>
    ensures { IfOk result (λ terminals. terminals.items ≡ map terminal_of tokens.now) }
{
    let mut terminals = Vec::new(alloc);
    for token in tokens {
        terminals.push(make_terminal(alloc, token)?)?;
    }
    Ok(terminals)
}
