//! The words of the command: what they ask for, or why they are none of its.
#![tactic(auto)]

mod parsed;
mod table_word;
mod words;

pub use table_word::{TableWord, tables_in};
pub use words::{Asked, asked_in};
