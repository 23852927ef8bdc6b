//! The command that checks a program text: from its words and files to what it writes and its status.
#![tactic(auto)]

mod laws;
mod top;
mod verdict;
mod words;

pub use laws::words_are_commands;
pub use top::cheetah_check;
