//! Inputs that are drawn by a generator from a seed: tables, a schedule and a query, and the command that runs over them.
#![tactic(auto)]

mod draws;
mod inputs;
mod request;
mod schedule_text;
mod summary;
mod table_text;
mod text;

pub use inputs::{command_words, files_of, query_text};
pub use request::{InputKind, Request, requested_in};
pub use summary::summary_front;
pub use table_text::TableRow;
