//! The tokens of a query text: which text is which token, the lexer, and the laws of its refusals.
#![tactic(auto)]

mod byte;
mod error;
mod laws;
mod quote;
mod scanner;
mod token;

pub use error::LexError;
pub use laws::{lex_refusals_are_exact, lexed_or_refused, lexed_tokens_are_tokens};
pub use scanner::{MAX_QUERY_BYTES, lex};
pub use token::{Symbol, Token};
