//! The latest used keys of each hash row, in registers: a column of an array for each place of a list. Their moves, what they
//! do, and the loop that emits them.
#![tactic(auto)]

mod columns;
mod operands;

pub use columns::{Columns, emit_columns, gate_after};
pub use operands::{put_each, words_from, words_of};
