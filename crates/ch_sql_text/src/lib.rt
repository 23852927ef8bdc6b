//! The one text of a query, and why reading it gives the query again.
#![tactic(auto)]

mod filter;
mod laws;
mod layout;
mod name;
mod phrase;
mod printer;
mod spelled;
mod text;
mod writer;

pub use laws::printed_queries_are_read_again;
pub use printer::print;
