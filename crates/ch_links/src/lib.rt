//! Links that hold packets as bytes, and what the parties do with the bytes of a packet.
#![tactic(auto)]

mod answers;
mod deliveries;
mod link;

pub use answers::{ack, receipt, with_epoch};
pub use deliveries::{arrival, learn, meet, take};
pub use link::Link;
