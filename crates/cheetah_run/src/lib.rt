//! What a query comes to that is read and planned: its run over the network, along its schedule, and what is written of it.
#![tactic(auto)]

mod laws;
mod running;

pub use laws::{answers_are_meanings, drained_runs_are_done, runs_are_configured};
pub use running::run_query;
