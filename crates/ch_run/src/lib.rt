//! A run of a query: workers, switch and master over links of bytes, event by event.
#![tactic(auto)]

mod draining;
mod following;
mod laws;
mod noting;
mod outcome;
mod run;

pub use ch_trace_lines::Noted;
pub use laws::{drained_runs_are_done, schedules_may_be_followed, stopped_runs_answer};
pub use outcome::Outcome;
pub use run::Run;
