//! The lines that say why a profile, a program, a table or a query is refused.
#![tactic(auto)]

mod machine;
mod query;
mod table;

pub use machine::{accepted_line, limit_text, profile_line, program_line, refused_line};
pub use query::query_line;
pub use table::table_line;
