//! Lines of a text, and the fields of a line.
#![tactic(auto)]

mod field;
mod line;

pub use field::{is_said, next_field};
pub use line::{Cut, next_line};
