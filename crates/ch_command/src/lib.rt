//! What the commands share: reading their files, how they end, and what a call of one promises.
#![tactic(auto)]

mod ending;
mod outcome;
mod reading;
mod status;
mod verdict;

pub use ending::{end, refuse_words};
pub use outcome::{Ending, Outcome};
pub use reading::read_files;
pub use status::Status;
pub use verdict::{Misuse, Verdict};
