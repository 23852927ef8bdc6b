//! The command that generates large inputs, runs the query over them, and sums up its answer.
#![tactic(auto)]

mod laws;
mod running;
mod top;
mod verdict;

pub use laws::{generated_requests_are_answerable, requests_are_summed_up, words_are_commands};
pub use top::cheetah_gen;
