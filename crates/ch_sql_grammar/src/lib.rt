//! The query language: its trees, its grammar as derivations, and the places that a token list comes to.
#![tactic(auto)]

mod error;
mod head;
mod keyword;
mod limits;
mod query;
mod tail;
mod terminal;

pub use error::ParseError;
pub use head::{Head, HeadPlace, HeadStep, HeadTaker};
pub use keyword::keyword_in;
pub use limits::{MAX_DEPTH, MAX_LITERALS};
pub use query::{Agg, ColumnRef, Having, Item, Pred, Query, Side, SkyDim, Source, Tail};
pub use tail::{TailPlace, TailTaker};
pub use terminal::{Mark, Terminal, is_mark, name_of, terminals_of};
