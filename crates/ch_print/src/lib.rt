//! The texts that the program writes.
#![tactic(auto)]

mod answer;
mod run;

pub use answer::{AnswerText, answer_text};
pub use run::{counts_text, report_text};
