//! The lines of a program text, read and written.
#![tactic(auto)]

mod first_cut;
mod laws;
mod line;
mod list;
mod number;
mod part;
mod read;
mod write;
mod write_part;

pub use first_cut::cut;
pub use laws::{lines_have_no_line_feed, read_lines_are_spelled, spelled_lines_are_read};
pub use line::{Line, LineError};
pub use read::read_line;
pub use write::{LineRef, push_line};
