//! Schedules: the text of what links and switch do in a run, read.
#![tactic(auto)]

mod field;
mod laws;
mod line;
mod read;
mod step;

pub use field::{natural, read_bytes};
pub use laws::{every_event_is_a_step, read_schedules_are_within_limits};
pub use read::{ScheduleError, ScheduleWhy, read_schedule};
pub use step::{How, Link, Schedule, Step};
