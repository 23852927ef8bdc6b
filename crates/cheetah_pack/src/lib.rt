//! The packing command: from its words and files to what it writes and its status.
#![tactic(auto)]

mod answering;
mod counting;
mod plans;
mod questions;
mod top;
mod verdict;

pub use cheetah_pack_meaning::words_are_commands;
pub use top::cheetah_pack;
