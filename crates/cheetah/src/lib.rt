//! The command: from its words and files to what it writes and its status.
#![tactic(auto)]

mod answering;
mod laws;
mod planning;
mod top;
mod verdict;

pub use laws::{
    accepted_requests_are_answered, drained_requests_are_never_open, words_are_commands,
};
pub use top::cheetah;
