//! The text of a program, both ways.
#![tactic(auto)]

mod error;
mod laws;
mod place;
mod read;
mod write;

pub use error::AsmError;
pub use laws::{bad_lines_are_told_once, programs_are_spelled_once, texts_are_read_or_refused};
pub use read::read_program;
pub use write::write_program;
