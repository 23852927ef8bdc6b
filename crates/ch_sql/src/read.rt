ghost use Rattle.std.specs.Prelude.{◌≡◌, IfErr, IfOk};
ghost use Rattle.ch_sql_grammar.specs.Tree.{Select, select_of};
ghost use Rattle.ch_sql_limits.specs.Texts.{Spells};
ghost use Rattle.ch_sql.specs.Reading.{IsQueryError, ReadsTo, lex_refusal, parse_refusal};

use crate::parser::parse;
use ch_sql_grammar::{ParseError, Query};
use ch_sql_tokens::{LexError, lex};
use std::alloc::Global;
use thiserror::Error;

/// Why a text is no query. Bytes and tokens are counted from 0.
#[derive(Clone, Copy, Debug, PartialEq, Eq, Error)]
pub enum QueryError {
    #[error("the text has {have} bytes, and a query text has at most 16384")]
    TooLong { have: usize },
    #[error("no token stands at byte {at}")]
    Byte { at: usize },
    #[error("the number at byte {at} is out of range")]
    NumberRange { at: usize },
    #[error("the tokens are no query from token {at} on")]
    Syntax { at: usize },
    #[error("token {at} nests more than 32 deep")]
    TooDeep { at: usize },
    #[error("the list has more than 16 values at token {at}")]
    InTooLong { at: usize },
    #[error("the pattern at token {at} is no prefix and a percent sign")]
    BadLike { at: usize },
    #[error("out of memory")]
    Memory,
}

fn lexing(error: LexError) -> QueryError
    ensures { result ≡ lex_refusal error }
{
    match error {
        LexError::TooLong { have } => QueryError::TooLong { have },
        LexError::Byte { at } => QueryError::Byte { at },
        LexError::NumberRange { at } => QueryError::NumberRange { at },
        LexError::Memory => QueryError::Memory,
    }
}

fn parsing(error: ParseError) -> QueryError
    ensures { result ≡ parse_refusal error }
{
    match error {
        ParseError::Syntax { at } => QueryError::Syntax { at },
        ParseError::TooDeep { at } => QueryError::TooDeep { at },
        ParseError::InTooLong { at } => QueryError::InTooLong { at },
        ParseError::BadLike { at } => QueryError::BadLike { at },
        ParseError::Memory => QueryError::Memory,
    }
}

/// The query that a text is.
pub fn read_query(alloc: Global, text: &[u8]) -> Result<Query, QueryError>
    // Read is the one query that the text spells.
    ensures found { IfOk result (λ q. Spells text.now (select_of q)) }
    // A refusal is the first that holds.
    ensures refused { IfErr result (IsQueryError text.now) }
    // What the text spells is read, unless memory runs out.
    ensures only { (tree : Select) → Spells text.now tree → ReadsTo tree result }
{
    match lex(alloc, text) {
        Ok(tokens) => match parse(alloc, &tokens) {
            Ok(query) => Ok(query),
            Err(error) => Err(parsing(error)),
        },
        Err(error) => Err(lexing(error)),
    }
}
