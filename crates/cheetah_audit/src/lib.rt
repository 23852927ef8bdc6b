//! The audit: from its words and files to what it writes and its status.
#![tactic(auto)]

mod audited;
mod errands;
mod laws;
mod running;
mod top;
mod verdict;

pub use laws::words_are_commands;
pub use top::cheetah_audit;
