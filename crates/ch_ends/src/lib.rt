//! The two ends of the protocol: the workers' windows, and the master's receipts.
#![tactic(auto)]

mod bits;
mod master;
mod worker;

pub use master::Master;
pub use worker::Worker;
