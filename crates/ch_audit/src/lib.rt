//! What a check of a trace has to compare, and what it says.
#![tactic(auto)]

mod compare;
mod said;

pub use compare::agrees;
pub use said::refused_line;
