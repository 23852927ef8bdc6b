//! The switch: which packet it expects, what it prunes, and a restart.
#![tactic(auto)]

mod handing;
mod switch;

pub use ch_protocol::Fate;
pub use ch_verdicts::Slot;
pub use switch::Switch;
