//! The verifier: what a program needs of each limit, and the first limit or rule that it breaks.
#![tactic(auto)]

mod access;
mod check;
mod checked;
mod known;
mod sizes;
mod stages;

pub use ch_ir::{LimitName, Refused, Sizes};
pub use check::verify;
pub use checked::{Checked, checked_programs_run};
pub use sizes::{is_countable, measure};
