//! The query language as its callers need it: the tokens of a text, the query that they are, its text,
//! and its types.
#![tactic(auto)]

mod laws;
mod parser;
mod read;

pub use ch_pred::{Cmp, Literal};
pub use ch_sql_grammar::{
    Agg, ColumnRef, Having, Item, ParseError, Pred, Query, Side, SkyDim, Source, Tail,
};
pub use ch_sql_text::{print, printed_queries_are_read_again};
pub use ch_sql_tokens::{LexError, MAX_QUERY_BYTES, Symbol, Token, lex, lexed_tokens_are_tokens};
pub use laws::{
    derived_queries_are_formed, parsed_queries_are_formed, spelled_queries_are_parsed,
    texts_are_queries_or_refused,
};
pub use parser::parse;
pub use read::{QueryError, read_query};
