//! Around the command that runs over generated files: that it takes their words, what it reads of them, and the line that
//! sums up its answer.
#![tactic(auto)]

mod laws;
mod summing;

pub use laws::{generated_files_are_read, generated_words_are_taken};
pub use summing::summary;
