//! A run that is written down as its trace, and a trace that is checked along the run of its own events.
#![tactic(auto)]

mod arrival;
mod checking;
mod noting;
mod said;
mod walking;
mod writing;

pub use checking::{Checked, check};
pub use noting::Noting;
pub use writing::write;
